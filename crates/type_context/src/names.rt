//! What names mean: objects, functions, enumerators, types, and the names of the library.
ghost use Rattle.std.specs.Prelude.{◌≡◌, IfOk, map};
ghost use Rattle.std.specs.Option.{option_map};
ghost use Rattle.std.specs.Map.{lookup};
ghost use Rattle.std.specs.Str.{bytes_eq};
ghost use Rattle.c_tree.specs.TypedViews.{type_view};
ghost use Rattle.c_typing.specs.Scope.{library};
ghost use Rattle.type_context.specs.ContextViews.{binding_view, number_view, library_view, library_entry, types_view};

use ak_words::IntType;
use c_tree::copies::copy_type;
use c_tree::typed::CType;
use std::alloc::{AllocError, Global};

/// An atomic type of the library (C11 7.17.6).
#[derive(Clone, Copy, Debug, PartialEq, Eq)]
pub enum AtomicType {
    Int,
    UnsignedInt,
    Long,
    UnsignedLong,
}

impl AtomicType {
    /// The type of the number.
    pub fn number(self) -> IntType
        ensures { result ≡ number_view self }
    {
        match self {
            AtomicType::Int => IntType::int(),
            AtomicType::UnsignedInt => IntType::unsigned_int(),
            AtomicType::Long => IntType::long(),
            AtomicType::UnsignedLong => IntType::unsigned_long(),
        }
    }
}

/// A name of the library: a call, an int, or an atomic type (C11 7.17, 7.21, 7.22, 7.24, 7.26).
#[derive(Clone, Copy, Debug, PartialEq, Eq)]
pub enum Library {
    Printf,
    Malloc,
    Calloc,
    Realloc,
    Free,
    Memcpy,
    ThrdCreate,
    ThrdJoin,
    MtxInit,
    MtxLock,
    MtxUnlock,
    MtxDestroy,
    /// `atomic_store`, and `atomic_init`.
    AtomicStore,
    AtomicLoad,
    AtomicAdd,
    AtomicSub,
    AtomicSwap,
    /// `atomic_compare_exchange_strong`, and the weak one.
    AtomicCompare,
    /// An integer constant.
    Constant(i32),
    /// An atomic type.
    AtomicType(AtomicType),
}

/// What a name means (C11 6.2.1).
#[derive(Debug, Drop)]
pub enum Binding {
    /// An object of file scope, by its number.
    Global(u32, CType),
    /// A local, by its number.
    Local(u32, CType),
    /// A function.
    Function {
        number: u32,
        params: Vec<CType>,
        result: CType,
    },
    /// An enumerator, by its value: an int (C11 6.7.2.2).
    Enumerator(i32),
    /// A type (C11 6.7.8).
    Type(CType),
    /// A name of the library.
    Library(Library),
}

/// The same types once more.
pub fn copy_types(alloc: Global, all: &[CType]) -> Result<Vec<CType>, AllocError>
    ensures { IfOk result (λ copies. types_view copies.items ≡ types_view all.now) }
{
    let mut copies = Vec::new(alloc);
    'types: for t in all {
        copies.push(copy_type(alloc, t)?)?;
    }
    Ok(copies)
}

/// The same meaning once more.
pub fn copy_meaning(alloc: Global, meaning: &Binding) -> Result<Binding, AllocError>
    ensures { IfOk result (λ copy. binding_view copy ≡ binding_view meaning.now) }
{
    match meaning {
        Binding::Global(n, t) => Ok(Binding::Global(*n, copy_type(alloc, t)?)),
        Binding::Local(n, t) => Ok(Binding::Local(*n, copy_type(alloc, t)?)),
        Binding::Function {
            number,
            params,
            result,
        } => Ok(Binding::Function {
            number: *number,
            params: copy_types(alloc, params)?,
            result: copy_type(alloc, result)?,
        }),
        Binding::Enumerator(value) => Ok(Binding::Enumerator(*value)),
        Binding::Type(t) => Ok(Binding::Type(copy_type(alloc, t)?)),
        Binding::Library(which) => Ok(Binding::Library(*which)),
    }
}

/// The names of the library.
const LIBRARY: [(&[u8], Library); 27] = [
    (b"printf", Library::Printf),
    (b"malloc", Library::Malloc),
    (b"calloc", Library::Calloc),
    (b"realloc", Library::Realloc),
    (b"free", Library::Free),
    (b"memcpy", Library::Memcpy),
    (b"thrd_create", Library::ThrdCreate),
    (b"thrd_join", Library::ThrdJoin),
    (b"mtx_init", Library::MtxInit),
    (b"mtx_lock", Library::MtxLock),
    (b"mtx_unlock", Library::MtxUnlock),
    (b"mtx_destroy", Library::MtxDestroy),
    (b"atomic_init", Library::AtomicStore),
    (b"atomic_store", Library::AtomicStore),
    (b"atomic_load", Library::AtomicLoad),
    (b"atomic_fetch_add", Library::AtomicAdd),
    (b"atomic_fetch_sub", Library::AtomicSub),
    (b"atomic_exchange", Library::AtomicSwap),
    (b"atomic_compare_exchange_strong", Library::AtomicCompare),
    (b"atomic_compare_exchange_weak", Library::AtomicCompare),
    (b"mtx_plain", Library::Constant(0)),
    (b"thrd_success", Library::Constant(0)),
    (b"thrd_error", Library::Constant(1)),
    (b"atomic_int", Library::AtomicType(AtomicType::Int)),
    (b"atomic_uint", Library::AtomicType(AtomicType::UnsignedInt)),
    (b"atomic_long", Library::AtomicType(AtomicType::Long)),
    (
        b"atomic_ulong",
        Library::AtomicType(AtomicType::UnsignedLong),
    ),
];

// The name among these that the bytes spell.
fn name_among(names: &[(&[u8], Library)], bytes: &[u8]) -> Option<Library>
    ensures { option_map library_view result ≡ lookup (bytes_eq bytes.now) (map library_entry names.now) }
{
    match names {
        [] => None,
        [(name, which), rest @ ..] => {
            if bytes == *name {
                Some(*which)
            } else {
                name_among(rest, bytes)
            }
        }
    }
}

/// The name of the library that the bytes spell.
#[tactic(auto, unfolding(c_typing::specs::Scope::library))]
pub fn library_name(bytes: &[u8]) -> Option<Library>
    ensures { option_map library_view result ≡ lookup (bytes_eq bytes.now) library }
{
    name_among(&LIBRARY, bytes)
}
