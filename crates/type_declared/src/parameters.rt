//! The types of parameters, and what is judged at each (C11 6.7.6.3).
ghost use Rattle.std.specs.Prelude.{◌≡◌, false, IfOk};
ghost use Rattle.c_tree.specs.SyntaxViews as source;
ghost use Rattle.c_tree.specs.Typed.{Ty, void};
ghost use Rattle.c_tree.specs.TypedViews.{type_view};
ghost use Rattle.c_typing.specs.Faults.{Judged, Gives, mapped};
ghost use Rattle.c_typing.specs.Types.{is_void, behind_pointers, arrays_of};
ghost use Rattle.c_typing.specs.Judgement.{object_type};
ghost use Rattle.c_typing.specs.Programs.{lacking, known, pointer_for, adjusted, adjusted_param, param_place, param_fine, is_bare, void_by, is_none};
ghost use Rattle.type_context.specs.ContextViews.{context_view};
ghost use Rattle.type_context.specs.Telling.{Says, lacks_memory};

use crate::functions::param_type;
use crate::objects::{MOST_LOCALS, fresh_if};
use c_lex::{CompileFault, Kind, Refusal};
use c_tree::syntax as tree;
use c_tree::syntax::{Name, Pointer};
use c_tree::typed::CType;
use std::alloc::{AllocError, Global};
use type_context::context::{Context, within};
use type_context::faults::{as_fault, both_or_refusal};
use type_context::kinds::is_void;
use type_rules::declarators::{Declared, object_declared, plain_type};
use type_rules::places::place_of_specs;
use type_rules::specifiers::behind_pointers;

/// A size that lacks: it may in the outermost brackets alone.
pub fn lacking(outermost: bool, place: u32) -> Result<Option<u32>, Refusal>
    ensures { Says (λ n. n) result (lacking outermost place) }
{
    if outermost {
        Ok(None)
    } else {
        Err(Refusal {
            place,
            kind: Kind::BadSize,
        })
    }
}

// Those that are there.
fn known(alloc: Global, sizes: &[Option<u32>]) -> Result<Vec<u32>, AllocError>
    ensures { IfOk result (λ v. v.items ≡ known sizes.now) }
{
    let mut all = Vec::new(alloc);
    'sizes: for size in sizes {
        if let Some(n) = size {
            all.push(*n)?;
        }
    }
    Ok(all)
}

// The elements of an array that is a parameter, which have a size (C11 6.7.6.2 p1).
fn element(
    context: &Context<'_>,
    place: u32,
    t: CType,
    inner: &[Option<u32>],
) -> Result<CType, CompileFault>
    ensures { Gives type_view result (object_type (context_view context.now) place (arrays_of (type_view t) (known inner.now))) }
{
    let sizes = known(context.alloc, inner)?;
    let unnamed = Name {
        from: place,
        to: place,
    };
    let elements = Declared {
        name: unnamed,
        pointers: &[],
        sizes,
    };
    object_declared(context, t, &elements)
}

// An array is a pointer to its elements, and each other type is itself.
fn pointer_for(t: CType) -> CType
    ensures { type_view result ≡ pointer_for (type_view t) }
{
    match t {
        CType::Array(element, _) => CType::Pointer(element),
        _ => t,
    }
}

// An array becomes a pointer to its elements (C11 6.7.6.3 p7), also one that the name of a type
// stands for.
#[tactic(auto, using(type_context::proofs::Judging::fails_part))]
fn adjusted(
    context: &Context<'_>,
    place: u32,
    t: CType,
    sizes: &[Option<u32>],
) -> Result<CType, CompileFault>
    ensures { Gives type_view result (adjusted (context_view context.now) place (type_view t) sizes.now) }
{
    let [_, inner @ ..] = sizes else {
        return as_fault(plain_type(place, pointer_for(t)));
    };
    let element = element(context, place, t, inner)?;
    let whole = CType::Pointer(Box::new(context.alloc, element)?);
    as_fault(plain_type(place, whole))
}

/// The place of a parameter: its name, or the first token of its specifiers.
pub fn param_place(p: &tree::Param) -> u32
    ensures { result ≡ param_place (source.param_view p.now) }
{
    match p.name {
        Some(name) => name.from,
        None => place_of_specs(&p.specs),
    }
}

/// The type of a parameter, by the type that its specifiers name, its pointers and its sizes.
#[tactic(auto, using(type_context::proofs::Judging::fails_part))]
pub fn adjusted_param(
    context: &Context<'_>,
    place: u32,
    base: CType,
    pointers: &[Pointer],
    sizes: &[Option<u32>],
) -> Result<CType, CompileFault>
    ensures { Gives type_view result (adjusted_param (context_view context.now) place (type_view base) pointers.now sizes.now) }
{
    let behind = behind_pointers(context.alloc, base, pointers)?;
    let whole = adjusted(context, place, behind, sizes)?;
    as_fault(param_type(context, place, whole))
}

/// What is judged at a parameter, whatever its type is: there are 16 at most, and they count among
/// the function's locals.
pub fn param_fine(
    context: &Context<'_>,
    place: u32,
    name: Option<Name>,
) -> Result<((), ((), ())), Refusal>
    ensures { Says (λ x. x) result (param_fine (context_view context.now) place name) }
{
    let count = context.locals.len();
    let few = both_or_refusal(
        within(place, 6, 16, count),
        within(place, 5, MOST_LOCALS, count),
    );
    both_or_refusal(fresh_if(context, name), few)
}

// Whether a parameter has no name and no brackets.
fn is_bare(p: &tree::Param) -> bool
    ensures { result ≡ is_bare (source.param_view p.now) }
{
    p.name.is_none() && p.dims.is_empty()
}

// Whether specifiers and pointers name void.
fn is_void_behind(base: &Result<CType, CompileFault>, pointers: &[Pointer]) -> bool
    ensures { (j : Judged Ty) → lacks_memory base.now ≡ false → Gives type_view base.now j → result ≡ void_by (mapped (λ t. behind_pointers t pointers.now) j) }
{
    match base {
        Ok(t) => void_behind(t, pointers),
        Err(_) => false,
    }
}

// Whether a type is void behind pointers.
fn void_behind(t: &CType, pointers: &[Pointer]) -> bool
    ensures { result ≡ is_void (behind_pointers (type_view t.now) pointers.now) }
{
    is_void(t) && stays_void(pointers)
}

// Whether pointers leave void as it is.
fn stays_void(pointers: &[Pointer]) -> bool
    ensures { result ≡ is_void (behind_pointers void pointers.now) }
{
    'pointers: for pointer in pointers {
        if *pointer == Pointer::Star {
            return false;
        }
    }
    true
}

/// Whether a parameter is none: it has no name and no brackets, and its type is void.
pub fn is_none(p: &tree::Param, base: &Result<CType, CompileFault>) -> bool
    ensures { (j : Judged Ty) → lacks_memory base.now ≡ false → Gives type_view base.now j → result ≡ is_none j (source.param_view p.now) }
{
    is_bare(p) && is_void_behind(base, &p.pointers)
}
