//! Types, operators and bytes as text.
use ak_words::{IntType, Op};
use c_tree::typed::CType;
use std::alloc::AllocError;

/// A type, from the outside in.
pub(crate) fn write_type(out: &mut String, t: &CType) -> Result<(), AllocError> {
    match t {
        CType::Void => out.push_str("void"),
        CType::Int(t) => write_int(out, *t),
        CType::Atomic(t) => {
            out.push_str("atomic ")?;
            write_int(out, *t)
        }
        CType::Mutex => out.push_str("mutex"),
        CType::Pointer(to) => {
            out.push_str("pointer to ")?;
            write_type(out, to)
        }
        CType::Array(of, size) => {
            write!(out, "array of {size} ")?;
            write_type(out, of)
        }
        CType::Struct(number) => write!(out, "struct {number}"),
    }
}

// An integer type: `i` with a sign, `u` without, and its bits.
fn write_int(out: &mut String, t: IntType) -> Result<(), AllocError> {
    write!(out, "{}{}", if t.signed { "i" } else { "u" }, t.bits)
}

/// Bytes as numbers, a space before each.
pub(crate) fn write_bytes(out: &mut String, bytes: &[u8]) -> Result<(), AllocError> {
    for byte in bytes {
        write!(out, " {byte}")?;
    }
    Ok(())
}

/// Two spaces for each step further in.
pub(crate) fn write_margin(out: &mut String, depth: u32) -> Result<(), AllocError> {
    for _ in 0..depth {
        out.push_str("  ")?;
    }
    Ok(())
}

/// An operator as C writes it.
pub(crate) fn symbol(op: Op) -> &'static str {
    match op {
        Op::Add => "+",
        Op::Sub => "-",
        Op::Mul => "*",
        Op::Div => "/",
        Op::Rem => "%",
        Op::Shl => "<<",
        Op::Shr => ">>",
        Op::And => "&",
        Op::Or => "|",
        Op::Xor => "^",
        Op::Eq => "==",
        Op::Ne => "!=",
        Op::Lt => "<",
        Op::Le => "<=",
        Op::Gt => ">",
        Op::Ge => ">=",
    }
}
