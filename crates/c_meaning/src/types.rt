//! What the meaning asks of types, of any type, also of those that no well formed program has.

ghost use Rattle.std.specs.Prelude.{◌≡◌, ◌*◌, IfOk, map, Some};
ghost use Rattle.c_tree.specs.TypedLayout.{size_in, align_in};
ghost use Rattle.c_tree.specs.TypedViews.{type_view, layout_view};
ghost use Rattle.c_meaning.specs.Values.{access_of_type, is_scalar, is_atomic, element_size, member_offset, offset_in, operand_types, is_minus};
ghost use Rattle.c_meaning.specs.Turns.{is_struct};

use ak_words::{IntType, NoMemory, Op, common, promote};
use block_store::Access;
use c_tree::typed::{CType, Layout};

/// The size of a type in bytes, 0 of one that has none.
///
/// # Errors
///
/// A size that is no number of 32 bits counts as want of memory; no object of a program has one.
pub fn size_in(t: &CType, structs: &[Layout]) -> Result<u32, NoMemory>
    ensures { IfOk result (λ n. n ≡ size_in (map layout_view structs.now) (type_view t.now)) }
{
    match t {
        CType::Void => Ok(0),
        CType::Int(t) | CType::Atomic(t) => Ok(u32::from(t.bits / 8)),
        CType::Mutex | CType::Pointer(_) => Ok(8),
        CType::Array(element, n) => product(size_in(element, structs)?, *n),
        CType::Struct(n) => match structs.get(*n as usize) {
            Some(l) => Ok(l.size),
            None => Ok(0),
        },
    }
}

fn product(a: u32, b: u32) -> Result<u32, NoMemory>
    ensures { IfOk result (λ n. n ≡ a * b) }
{
    match a.checked_mul(b) {
        Some(n) => Ok(n),
        None => Err(NoMemory),
    }
}

/// The alignment of a type in bytes, 1 of one that has none.
pub fn align_in(t: &CType, structs: &[Layout]) -> u32
    ensures { result ≡ align_in (map layout_view structs.now) (type_view t.now) }
{
    match t {
        CType::Void => 1,
        CType::Int(t) | CType::Atomic(t) => u32::from(t.bits / 8),
        CType::Mutex | CType::Pointer(_) => 8,
        CType::Array(element, _) => align_in(element, structs),
        CType::Struct(n) => match structs.get(*n as usize) {
            Some(l) => l.align,
            None => 1,
        },
    }
}

/// The size in bytes of what a pointer of this type points to, 0 where it is no pointer.
///
/// # Errors
///
/// As `size_in`.
pub fn element_size(t: &CType, structs: &[Layout]) -> Result<u32, NoMemory>
    ensures { IfOk result (λ n. n ≡ element_size (map layout_view structs.now) (type_view t.now)) }
{
    match t {
        CType::Pointer(element) => size_in(element, structs),
        _ => Ok(0),
    }
}

/// Where a member begins in an object of this type, in bytes; 0 where it has no such member.
pub fn member_offset(t: &CType, structs: &[Layout], member: u32) -> u32
    ensures { result ≡ member_offset (map layout_view structs.now) (type_view t.now) member }
{
    match t {
        CType::Struct(n) => match structs.get(*n as usize) {
            Some(l) => offset_in(l, member),
            None => 0,
        },
        _ => 0,
    }
}

fn offset_in(l: &Layout, member: u32) -> u32
    ensures { result ≡ offset_in (Some (layout_view l.now)) member }
{
    match l.offsets.get(member as usize) {
        Some(offset) => *offset,
        None => 0,
    }
}

/// How an object of this type is accessed.
pub fn access_of_type(t: &CType) -> Access
    ensures { result ≡ access_of_type (type_view t.now) }
{
    match t {
        CType::Int(t) | CType::Atomic(t) => Access::Number(*t),
        _ => Access::Pointer,
    }
}

/// Whether it is a number, also an atomic one, or a pointer (C11 6.2.5 p20, p21).
pub fn is_scalar(t: &CType) -> bool
    ensures { result ≡ is_scalar (type_view t.now) }
{
    matches!(t, CType::Int(_) | CType::Atomic(_) | CType::Pointer(_))
}

/// Whether it is an atomic number.
pub fn is_atomic(t: &CType) -> bool
    ensures { result ≡ is_atomic (type_view t.now) }
{
    matches!(t, CType::Atomic(_))
}

/// Whether it is a struct.
pub fn is_struct(t: &CType) -> bool
    ensures { result ≡ is_struct (type_view t.now) }
{
    matches!(t, CType::Struct(_))
}

/// The types in which `a op b` is computed (C11 6.3.1.8, 6.5.7 p3).
pub fn operand_types(op: Op, a: IntType, b: IntType) -> (IntType, IntType)
    ensures { result ≡ operand_types op a b }
{
    match op {
        Op::Shl | Op::Shr => (promote(a), promote(b)),
        _ => (common(a, b), common(a, b)),
    }
}

/// Whether it is the operator `-`.
pub fn is_minus(op: Op) -> bool
    ensures { result ≡ is_minus op }
{
    matches!(op, Op::Sub)
}
