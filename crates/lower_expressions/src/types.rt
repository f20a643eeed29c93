//! What lowering asks of types.

ghost use Rattle.std.specs.Prelude.{◌≡◌, IfOk, map};
ghost use Rattle.c_tree.specs.TypedLayout.{align_in};
ghost use Rattle.c_tree.specs.Typed.{exprs_of};
ghost use Rattle.c_tree.specs.TypedViews.{type_view, layout_view, expr_view};
ghost use Rattle.lower_forms.specs.Forms.{number_type, pointed_number, changed_number, unsigned_of, is_void, is_pointer, is_number};

use ak_words::{IntType, NoMemory};
use c_meaning::types::align_in;
use c_tree::typed::{CType, Expr, Layout};

/// The alignment of an object, which is at most 8.
pub fn small_align(t: &CType, structs: &[Layout]) -> Result<u8, NoMemory>
    ensures { IfOk result (λ n. n ≡ align_in (map layout_view structs.now) (type_view t.now)) }
{
    match u8::try_from(align_in(t, structs)) {
        Ok(n) => Ok(n),
        Err(_) => Err(NoMemory),
    }
}

/// Whether it is `void`.
pub fn is_void(t: &CType) -> bool
    ensures { result ≡ is_void (type_view t.now) }
{
    matches!(t, CType::Void)
}

/// Whether it is a pointer.
pub fn is_pointer(t: &CType) -> bool
    ensures { result ≡ is_pointer (type_view t.now) }
{
    matches!(t, CType::Pointer(_))
}

/// Whether it is a number.
pub fn is_number(t: &CType) -> bool
    ensures { result ≡ is_number (type_view t.now) }
{
    matches!(t, CType::Int(_))
}

/// The type of the numbers of an operand or of an object, also of an atomic one.
pub fn number_type(t: &CType) -> IntType
    ensures { result ≡ number_type (type_view t.now) }
{
    match t {
        CType::Int(t) | CType::Atomic(t) => *t,
        _ => IntType::INT,
    }
}

// The type of the numbers to which a pointer of this type leads.
fn pointed_number(t: &CType) -> IntType
    ensures { result ≡ pointed_number (type_view t.now) }
{
    match t {
        CType::Pointer(to) => number_type(to),
        _ => IntType::INT,
    }
}

/// The type of the numbers to which the first argument of a call leads.
pub fn changed_number(args: &[Expr]) -> IntType
    ensures { result ≡ changed_number (exprs_of (map expr_view args.now)) }
{
    match args.first() {
        Some(e) => pointed_number(&e.ty),
        None => IntType::INT,
    }
}

/// The unsigned type of the same width (C11 6.2.5 p6).
pub fn unsigned_of(t: IntType) -> IntType
    ensures { result ≡ unsigned_of t }
{
    IntType {
        signed: false,
        bits: t.bits,
    }
}
