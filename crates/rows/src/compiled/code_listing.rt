//! Structured code as text, for people and tests: one line a node.

use ak_words::{IntType, NoMemory, Num, Op};
use block_store::{Access, Change};
use c_tree::typed::Piece;
use std::alloc::Global;
use struct_ir::{Action, Calc, CallNode, Ir, Node, NodeKind, Place, StepNode};

/// The code as text, with one line for each function and for each node. A line begins with two
/// spaces for each If or Loop around it; in the first row of one `+` stands there, in the second
/// `-`. Registers are `t0` on, pin slots `s0` on.
///
/// # Errors
///
/// Only want of memory.
pub fn text(alloc: Global, ir: &Ir) -> Result<Vec<u8>, NoMemory> {
    let mut out = String::new(alloc);
    for (i, f) in ir.funcs.iter().enumerate() {
        write_head(&mut out, i, f.params, f.temps, f.slots, f.objects.len())?;
        write_row(&mut out, 0, "", &f.nodes)?;
    }
    Ok(out.into_bytes())
}

// The first line of a function.
pub(crate) fn write_head(
    out: &mut String,
    i: usize,
    params: u32,
    temps: u32,
    slots: u32,
    objects: usize,
) -> Result<(), NoMemory> {
    write!(out, "function {i}: {params} parameters, {temps} registers")?;
    write!(out, ", {slots} slots, {objects} objects\n")?;
    Ok(())
}

#[cycle(rows)]
fn write_row(out: &mut String, depth: u32, mark: &str, nodes: &[Node]) -> Result<(), NoMemory> {
    for n in nodes {
        write_node(out, depth, mark, n)?;
    }
    Ok(())
}

#[cycle(rows)]
fn write_node(out: &mut String, depth: u32, mark: &str, n: &Node) -> Result<(), NoMemory> {
    write_margin(out, depth, mark)?;
    match &n.kind {
        NodeKind::If(temp, one, other) => {
            write!(out, "if t{temp}\n")?;
            write_row(out, depth.saturating_add(1), "+ ", one)?;
            write_row(out, depth.saturating_add(1), "- ", other)
        }
        NodeKind::Loop(body, step) => {
            write_word(out, "loop\n")?;
            write_row(out, depth.saturating_add(1), "+ ", body)?;
            write_row(out, depth.saturating_add(1), "- ", step)
        }
        kind => write_plain(out, kind),
    }
}

fn write_margin(out: &mut String, depth: u32, mark: &str) -> Result<(), NoMemory> {
    for _ in 1..depth {
        out.push_str("  ")?;
    }
    Ok(out.push_str(mark)?)
}

// A node without rows, to the end of its line.
fn write_plain(out: &mut String, kind: &NodeKind) -> Result<(), NoMemory> {
    write_kind(out, kind)?;
    Ok(out.push_str("\n")?)
}

fn write_kind(out: &mut String, kind: &NodeKind) -> Result<(), NoMemory> {
    match kind {
        NodeKind::Set(to, calc) => write_set(out, *to, calc),
        NodeKind::Break => write_word(out, "break"),
        NodeKind::Next => write_word(out, "next"),
        NodeKind::Call(c) => write_call(out, c),
        NodeKind::Ret(temp) => write_return(out, *temp),
        NodeKind::Step(s) => write_step(out, s),
        NodeKind::Look(slot, base) => write_look(out, *slot, *base),
        NodeKind::Safepoint(slots) => write_safepoint(out, "safepoint", slots),
        NodeKind::Begin(i) => write_numbered(out, "begin object ", *i),
        NodeKind::End(i) => write_numbered(out, "end object ", *i),
        NodeKind::If(..) | NodeKind::Loop(..) => Ok(()),
    }
}

fn write_word(out: &mut String, word: &str) -> Result<(), NoMemory> {
    Ok(out.push_str(word)?)
}

// A number behind what says of what.
fn write_numbered(out: &mut String, word: &str, n: u32) -> Result<(), NoMemory> {
    write!(out, "{word}{n}")?;
    Ok(())
}

pub(crate) fn write_set(out: &mut String, to: u32, calc: &Calc) -> Result<(), NoMemory> {
    write!(out, "t{to} = ")?;
    write_calc(out, calc)
}

pub(crate) fn write_return(out: &mut String, temp: Option<u32>) -> Result<(), NoMemory> {
    match temp {
        None => write_word(out, "return"),
        Some(temp) => write_numbered(out, "return t", temp),
    }
}

pub(crate) fn write_look(out: &mut String, slot: u32, base: u32) -> Result<(), NoMemory> {
    write!(out, "look s{slot} t{base}")?;
    Ok(())
}

pub(crate) fn write_safepoint(out: &mut String, word: &str, slots: &[u32]) -> Result<(), NoMemory> {
    write_word(out, word)?;
    write_list(out, "s", slots)
}

fn write_list(out: &mut String, letter: &str, list: &[u32]) -> Result<(), NoMemory> {
    for x in list {
        write!(out, " {letter}{x}")?;
    }
    Ok(())
}

fn write_to(out: &mut String, to: Option<u32>) -> Result<(), NoMemory> {
    if let Some(t) = to {
        write!(out, "t{t} = ")?;
    }
    Ok(())
}

fn write_calc(out: &mut String, calc: &Calc) -> Result<(), NoMemory> {
    match calc {
        Calc::Num(ty, bits) => write_value(out, Num::from_bits(*ty, *bits).value),
        Calc::Unset => write_word(out, "unset"),
        Calc::Null => write_word(out, "null"),
        Calc::Global(n) => write_numbered(out, "global ", *n),
        Calc::Literal(n) => write_numbered(out, "literal ", *n),
        Calc::Object(n) => write_numbered(out, "object ", *n),
        Calc::Copy(t) => write_numbered(out, "t", *t),
        Calc::Convert(to, t) => write_converted(out, *t, *to),
        Calc::Apply(op, t, a, b) => {
            write_pair(out, *a, symbol(*op), *b)?;
            write_type(out, *t)
        }
        Calc::PtrAdd(p, n, scale) => write_moved(out, *p, "+", *n, *scale),
        Calc::PtrSub(p, n, scale) => write_moved(out, *p, "-", *n, *scale),
        Calc::PtrDiff(p, q, scale) => write_distance(out, *p, *q, *scale),
        Calc::PtrCompare(op, p, q) => write_pair(out, *p, symbol(*op), *q),
        Calc::PtrTest(p) => write_test(out, *p),
    }
}

fn write_value(out: &mut String, value: i128) -> Result<(), NoMemory> {
    write!(out, "{value}")?;
    Ok(())
}

// Two registers with an operator between.
fn write_pair(out: &mut String, a: u32, between: &str, b: u32) -> Result<(), NoMemory> {
    write!(out, "t{a} {between} t{b}")?;
    Ok(())
}

fn write_type(out: &mut String, ty: IntType) -> Result<(), NoMemory> {
    write!(out, " as {}{}", sign(ty.signed), ty.bits)?;
    Ok(())
}

fn write_converted(out: &mut String, t: u32, to: IntType) -> Result<(), NoMemory> {
    write_numbered(out, "t", t)?;
    write_type(out, to)
}

fn write_moved(out: &mut String, p: u32, way: &str, n: u32, scale: u32) -> Result<(), NoMemory> {
    write_pair(out, p, way, n)?;
    write_numbered(out, " * ", scale)
}

fn write_distance(out: &mut String, p: u32, q: u32, scale: u32) -> Result<(), NoMemory> {
    write!(out, "(t{p} - t{q}) / {scale}")?;
    Ok(())
}

fn write_test(out: &mut String, p: u32) -> Result<(), NoMemory> {
    write!(out, "t{p} != null")?;
    Ok(())
}

fn sign(signed: bool) -> &'static str {
    if signed { "i" } else { "u" }
}

fn symbol(op: Op) -> &'static str {
    match op {
        Op::Add => "+",
        Op::Sub => "-",
        Op::Mul => "*",
        Op::Div => "/",
        Op::Rem => "%",
        Op::Shl => "<<",
        Op::Shr => ">>",
        Op::And => "&",
        Op::Or => "|",
        Op::Xor => "^",
        Op::Eq => "==",
        Op::Ne => "!=",
        Op::Lt => "<",
        Op::Le => "<=",
        Op::Gt => ">",
        Op::Ge => ">=",
    }
}

pub(crate) fn write_call(out: &mut String, c: &CallNode) -> Result<(), NoMemory> {
    write_to(out, c.to)?;
    write_numbered(out, "call ", c.function)?;
    write_list(out, "t", &c.temps)?;
    write_held(out, &c.slots)
}

fn write_held(out: &mut String, slots: &[u32]) -> Result<(), NoMemory> {
    if slots.len() > 0 {
        write_word(out, " holds")?;
    }
    write_list(out, "s", slots)
}

pub(crate) fn write_step(out: &mut String, s: &StepNode) -> Result<(), NoMemory> {
    write_to(out, s.to)?;
    write_action(out, &s.action)?;
    for a in &s.places {
        write_place(out, a)?;
    }
    write_list(out, "t", &s.temps)?;
    write_held(out, &s.slots)
}

fn write_action(out: &mut String, action: &Action) -> Result<(), NoMemory> {
    match action {
        Action::Load(how) => write_access(out, "load", how),
        Action::Store(how) => write_access(out, "store", how),
        Action::Copy { .. } => write_word(out, "copy"),
        Action::Malloc => write_word(out, "malloc"),
        Action::Calloc => write_word(out, "calloc"),
        Action::Realloc => write_word(out, "realloc"),
        Action::Free => write_word(out, "free"),
        Action::Change(how, ty) => write_change(out, *how, *ty),
        Action::Compare(ty) => write_compare(out, *ty),
        Action::Print(pieces) => write_pieces(out, pieces),
        Action::Lock => write_word(out, "lock"),
        Action::Unlock => write_word(out, "unlock"),
        Action::Destroy => write_word(out, "destroy"),
        Action::Start(f) => write_numbered(out, "start ", *f),
        Action::Join => write_word(out, "join"),
    }
}

fn write_access(out: &mut String, word: &str, how: &Access) -> Result<(), NoMemory> {
    write!(out, "{word} {how:?}")?;
    Ok(())
}

fn write_change(out: &mut String, how: Change, ty: IntType) -> Result<(), NoMemory> {
    write_word(out, change_word(how))?;
    write_type(out, ty)
}

fn change_word(how: Change) -> &'static str {
    match how {
        Change::Add => "add",
        Change::Swap => "swap",
    }
}

fn write_compare(out: &mut String, ty: IntType) -> Result<(), NoMemory> {
    write_word(out, "compare")?;
    write_type(out, ty)
}

fn write_pieces(out: &mut String, pieces: &[Piece]) -> Result<(), NoMemory> {
    write_word(out, "print")?;
    for p in pieces {
        write_piece(out, p)?;
    }
    Ok(())
}

fn write_piece(out: &mut String, p: &Piece) -> Result<(), NoMemory> {
    match p {
        Piece::Bytes(all) => write_bytes(out, all.len()),
        Piece::Signed(_) => write_word(out, " %d"),
        Piece::Unsigned(_) => write_word(out, " %u"),
        Piece::Hex(_) => write_word(out, " %x"),
        Piece::Char => write_word(out, " %c"),
        Piece::Text => write_word(out, " %s"),
    }
}

fn write_bytes(out: &mut String, count: usize) -> Result<(), NoMemory> {
    write!(out, " {count} bytes")?;
    Ok(())
}

fn write_place(out: &mut String, a: &Place) -> Result<(), NoMemory> {
    write_numbered(out, " [t", a.base)?;
    if let Some(i) = a.index {
        write!(out, " + t{i} * {}", a.scale)?;
    }
    if a.offset > 0 {
        write!(out, " + {}", a.offset)?;
    }
    if let Some(s) = a.slot {
        write_numbered(out, " by s", s)?;
    }
    Ok(out.push_str("]")?)
}
