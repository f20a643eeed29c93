ghost use Rattle.std.specs.Prelude.{◌≡◌, map};
ghost use Rattle.c_tree.specs.TypedViews.{type_view, layout_view};
ghost use Rattle.c_tree.specs.TypedLayout.{IsSized, size_in, align_in};

use crate::typed::{CType, Layout};

/// The size of a type in bytes (this project's profile: a number has the size of its bits, a
/// pointer and a mutex 8 bytes). The type is complete and, with each array and struct in it, of at
/// most 16,777,216 bytes.
pub fn size_of(t: &CType, structs: &[Layout]) -> u32
    requires { IsSized (map layout_view structs.now) (type_view t.now) }
    ensures { result ≡ size_in (map layout_view structs.now) (type_view t.now) }
{
    match t {
        CType::Void => 0,
        CType::Int(t) | CType::Atomic(t) => u32::from(t.bits / 8),
        CType::Mutex | CType::Pointer(_) => 8,
        CType::Array(element, n) => size_of(element, structs) * *n,
        CType::Struct(n) => structs[*n as usize].size,
    }
}

/// The alignment of a type in bytes, which of a number, a pointer and a mutex is its size. The
/// type is complete and, with each array and struct in it, of at most 16,777,216 bytes.
pub fn align_of(t: &CType, structs: &[Layout]) -> u32
    requires { IsSized (map layout_view structs.now) (type_view t.now) }
    ensures { result ≡ align_in (map layout_view structs.now) (type_view t.now) }
{
    match t {
        CType::Void => 1,
        CType::Int(t) | CType::Atomic(t) => u32::from(t.bits / 8),
        CType::Mutex | CType::Pointer(_) => 8,
        CType::Array(element, _) => align_of(element, structs),
        CType::Struct(n) => structs[*n as usize].align,
    }
}
