//! Types, compared and completed (C11 6.2.5, 6.2.7, 6.7.2).
ghost use Rattle.std.specs.Prelude.{◌≡◌, map, nat_le};
ghost use Rattle.c_tree.specs.TypedViews.{type_view, layout_view};
ghost use Rattle.c_typing.specs.Types.{same_int, same_type, same_types, is_void, is_array, is_scalar, is_promoted, value_type, is_struct_or_mutex, has_size, is_declared, depth_of};

use ak_words::IntType;
use c_tree::typed::{CType, Layout};

/// Whether the two are one integer type.
pub fn same_int(s: IntType, t: IntType) -> bool
    ensures { result ≡ same_int s t }
{
    s.signed == t.signed && s.bits == t.bits
}

/// Whether it has 32 or 64 bits: of the types that there are, 32 at least.
pub fn is_promoted(t: IntType) -> bool
    ensures { result ≡ is_promoted t }
{
    t.bits >= 32
}

/// Whether the two are one type.
pub fn same_type(s: &CType, t: &CType) -> bool
    ensures { result ≡ same_type (type_view s.now) (type_view t.now) }
{
    match (s, t) {
        (CType::Void, CType::Void) | (CType::Mutex, CType::Mutex) => true,
        (CType::Int(s), CType::Int(t)) => same_int(*s, *t),
        (CType::Atomic(s), CType::Atomic(t)) => same_int(*s, *t),
        (CType::Pointer(s), CType::Pointer(t)) => same_type(s, t),
        (CType::Array(s, m), CType::Array(t, n)) => same_type(s, t) && m == n,
        (CType::Struct(m), CType::Struct(n)) => m == n,
        _ => false,
    }
}

/// Whether the two are one list of types.
pub fn same_types(ss: &[CType], ts: &[CType]) -> bool
    ensures { result ≡ same_types (map type_view ss.now) (map type_view ts.now) }
{
    let [s, ss @ ..] = ss else {
        return ts.is_empty();
    };
    let [t, ts @ ..] = ts else {
        return false;
    };
    same_type(s, t) && same_types(ss, ts)
}

/// Whether it is `void`.
pub fn is_void(t: &CType) -> bool
    ensures { result ≡ is_void (type_view t.now) }
{
    matches!(t, CType::Void)
}

/// Whether it is an array.
pub fn is_array(t: &CType) -> bool
    ensures { result ≡ is_array (type_view t.now) }
{
    matches!(t, CType::Array(_, _))
}

/// Whether it is a number, also an atomic one, or a pointer.
pub fn is_scalar(t: &CType) -> bool
    ensures { result ≡ is_scalar (type_view t.now) }
{
    matches!(t, CType::Int(_) | CType::Atomic(_) | CType::Pointer(_))
}

/// The type of what is read from an object of the type: from an atomic number the number (C11 6.3.2.1 p2).
pub fn value_type(t: CType) -> CType
    ensures { type_view result ≡ value_type (type_view t) }
{
    match t {
        CType::Atomic(t) => CType::Int(t),
        _ => t,
    }
}

/// Whether it is what can't be a parameter, a result or the type of a cast.
pub fn is_struct_or_mutex(t: &CType) -> bool
    ensures { result ≡ is_struct_or_mutex (type_view t.now) }
{
    matches!(t, CType::Struct(_) | CType::Mutex)
}

/// Whether it is complete: void has no size, and neither has a struct that isn't declared (C11
/// 6.2.5 p19, p22).
pub fn has_size(structs: &[Layout], t: &CType) -> bool
    ensures { result ≡ has_size (map layout_view structs.now) (type_view t.now) }
{
    match t {
        CType::Void => false,
        CType::Int(_) | CType::Atomic(_) | CType::Mutex | CType::Pointer(_) => true,
        CType::Array(element, _) => has_size(structs, element),
        CType::Struct(n) => structs
            .get(*n as usize)
            .is_some_and(|layout| layout.size > 0),
    }
}

/// Whether it is a struct that is declared, or no struct.
pub fn is_declared(structs: &[Layout], t: &CType) -> bool
    ensures { result ≡ is_declared (map layout_view structs.now) (type_view t.now) }
{
    match t {
        CType::Struct(_) => has_size(structs, t),
        _ => true,
    }
}

/// Whether so many stars and brackets at most made it, those behind the names of types in it
/// counted.
#[tactic(auto, using(crate::proofs::Depths::one_deeper))]
pub fn is_within_depth(t: &CType, most: u32) -> bool
    ensures { result ≡ nat_le (depth_of (type_view t.now)) most }
{
    match t {
        CType::Pointer(target) => most > 0 && is_within_depth(target, most - 1),
        CType::Array(element, _) => most > 0 && is_within_depth(element, most - 1),
        CType::Void | CType::Int(_) | CType::Atomic(_) | CType::Mutex | CType::Struct(_) => true,
    }
}
