//! The types that specifiers and pointers name (C11 6.7.2, 6.7.6.1).
ghost use Rattle.std.specs.Prelude.{◌≡◌, map, IfOk};
ghost use Rattle.std.specs.Option.{option_map};
ghost use Rattle.c_tree.specs.TypedViews.{type_view};
ghost use Rattle.c_typing.specs.Faults.{Gives, typed};
ghost use Rattle.c_typing.specs.Types.{behind_pointers};
ghost use Rattle.c_typing.specs.Judgement.{words_of, atomics_in, wholes_of, type_by, atomic_if, specified};
ghost use Rattle.type_context.specs.ContextViews.{types_view};
ghost use Rattle.type_rules.specs.SpecifierViews.{part_view};

use c_lex::{CompileFault, Kind};
use c_tree::copies::copy_type;
use c_tree::syntax::{Pointer, TypeWord};
use c_tree::typed::CType;
use std::alloc::{AllocError, Global};
use type_context::faults::refused;
use type_context::words::{atomic_by, is_atomic_word, named_by, says_nothing};

/// A word among specifiers, or a type of its own: a struct, an enum, or what the name of a type
/// stands for.
#[derive(Debug, Drop)]
pub enum Part {
    Word(TypeWord),
    Whole(CType),
}

// The words that say something of the type.
fn words_of(alloc: Global, parts: &[Part]) -> Result<Vec<TypeWord>, AllocError>
    ensures { IfOk result (λ words. words.items ≡ words_of (map part_view parts.now)) }
{
    let mut words = Vec::new(alloc);
    'parts: for part in parts {
        if let Part::Word(word) = part {
            if !says_nothing(*word) {
                words.push(*word)?;
            }
        }
    }
    Ok(words)
}

// How often `_Atomic` stands among them.
fn atomics_in(parts: &[Part]) -> usize
    ensures { result ≡ atomics_in (map part_view parts.now) }
{
    let mut n = 0;
    'parts: for part in parts {
        if let Part::Word(word) = part {
            if is_atomic_word(*word) {
                n += 1;
            }
        }
    }
    n
}

// The types of their own.
fn wholes_of(alloc: Global, parts: &[Part]) -> Result<Vec<CType>, AllocError>
    ensures { IfOk result (λ wholes. types_view wholes.items ≡ wholes_of (map part_view parts.now)) }
{
    let mut wholes = Vec::new(alloc);
    'parts: for part in parts {
        if let Part::Whole(t) = part {
            wholes.push(copy_type(alloc, t)?)?;
        }
    }
    Ok(wholes)
}

// The type that types of their own and words name, if they name one.
fn type_by(alloc: Global, wholes: &[CType], words: &[TypeWord]) -> Result<Option<CType>, AllocError>
    ensures { IfOk result (λ t. option_map type_view t ≡ type_by (types_view wholes.now) words.now) }
{
    match (wholes, words) {
        ([], words) => Ok(named_by(words)),
        ([t], []) => Ok(Some(copy_type(alloc, t)?)),
        _ => Ok(None),
    }
}

// The type that they name, if they name one, with `_Atomic` so often beside it.
fn atomic_if(count: usize, t: Option<CType>) -> Option<CType>
    ensures { option_map type_view result ≡ atomic_if count (option_map type_view t) }
{
    match t {
        Some(t) => atomic_by(count, t),
        None => None,
    }
}

// The type that specifiers name, if they name one.
fn named_type(alloc: Global, parts: &[Part]) -> Result<Option<CType>, AllocError>
    ensures { IfOk result (λ t. option_map type_view t ≡ atomic_if (atomics_in (map part_view parts.now)) (type_by (wholes_of (map part_view parts.now)) (words_of (map part_view parts.now)))) }
{
    let wholes = wholes_of(alloc, parts)?;
    let words = words_of(alloc, parts)?;
    let named = type_by(alloc, &wholes, &words)?;
    Ok(atomic_if(atomics_in(parts), named))
}

/// The type that specifiers name (C11 6.7.2 p2).
pub fn specified(alloc: Global, place: u32, parts: &[Part]) -> Result<CType, CompileFault>
    ensures { Gives type_view result (specified place (map part_view parts.now)) }
{
    match named_type(alloc, parts)? {
        Some(t) => Ok(t),
        None => refused(place, Kind::TypeMismatch),
    }
}

/// A pointer for each star; `const` and `restrict` say nothing of the type (C11 6.7.6.1).
pub fn behind_pointers(alloc: Global, t: CType, pointers: &[Pointer]) -> Result<CType, CompileFault>
    ensures { Gives type_view result (typed (behind_pointers (type_view t) pointers.now)) }
{
    let mut t = t;
    'pointers: for pointer in pointers {
        if *pointer == Pointer::Star {
            t = CType::Pointer(Box::new(alloc, t)?);
        }
    }
    Ok(t)
}
