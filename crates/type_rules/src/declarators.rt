//! Objects that are declared: their types, and the sizes of arrays (C11 6.7.6).
ghost use Rattle.std.specs.Prelude.{◌≡◌};
ghost use Rattle.c_tree.specs.SyntaxViews as sources;
ghost use Rattle.c_tree.specs.TypedViews.{type_view, expr_view};
ghost use Rattle.c_typing.specs.Faults.{Gives, typed};
ghost use Rattle.c_typing.specs.Types.{arrays_of};
ghost use Rattle.c_typing.specs.Judgement.{declared_type, dimension_by, dimension, fits_depth, plain_type, object_type, object_declared};
ghost use Rattle.type_context.specs.ContextViews.{context_view};
ghost use Rattle.type_context.specs.Telling.{Says, both_fine};
ghost use Rattle.type_rules.specs.inner.Objects.{sized};
ghost use Rattle.type_rules.specs.SpecifierViews.{declared_view};

use crate::constants::constant_value;
use crate::places::node_place;
use crate::specifiers::behind_pointers;
use ak_words::Num;
use c_lex::{CompileFault, Kind, Refusal};
use c_tree::syntax;
use c_tree::syntax::{Name, Pointer};
use c_tree::typed::{CType, Expr};
use std::alloc::Global;
use type_context::context::Context;
use type_context::faults::{as_fault, unless};
use type_context::kinds::{has_size, is_within_depth};
use type_context::layouts::{GREATEST_OBJECT, is_small};
use type_context::outcomes::both_fine;

/// A declarator, once its sizes are known.
#[derive(Drop)]
pub struct Declared<'a> {
    pub name: Name,
    pub pointers: &'a [Pointer],
    pub sizes: Vec<u32>,
}

// Arrays of these sizes, the outermost first: at most 64, since no declarator as it is written has
// more stars and dimensions.
fn arrays_of(alloc: Global, t: CType, sizes: &[u32]) -> Result<CType, CompileFault>
    ensures { Gives type_view result (typed (arrays_of (type_view t) sizes.now)) }
{
    match sizes {
        [] => Ok(t),
        [size, inner @ ..] => {
            let element = arrays_of(alloc, t, inner)?;
            Ok(CType::Array(Box::new(alloc, element)?, *size))
        }
    }
}

// The type that a declarator makes of another.
fn declared_type(alloc: Global, t: CType, d: &Declared<'_>) -> Result<CType, CompileFault>
    ensures { Gives type_view result (typed (declared_type (type_view t) (declared_view d.now).pointers (declared_view d.now).sizes)) }
{
    let t = behind_pointers(alloc, t, d.pointers)?;
    arrays_of(alloc, t, &d.sizes)
}

// The stars and brackets of a type, of which there are so many at most.
const MOST_DEPTH: u32 = 64;

/// A type is made of 64 stars and brackets at most.
pub fn fits_depth(place: u32, t: &CType) -> Result<(), Refusal>
    ensures { Says (λ _. tt) result (fits_depth place (type_view t.now)) }
{
    unless(place, Kind::TooMany(15), is_within_depth(t, MOST_DEPTH))
}

/// The type of a type name or of a function's result.
#[tactic(auto, using(type_context::proofs::Judging::refused_part))]
pub fn plain_type(place: u32, t: CType) -> Result<CType, Refusal>
    ensures { Says type_view result (plain_type place (type_view t)) }
{
    fits_depth(place, &t)?;
    Ok(t)
}

// What is judged of an object's type.
fn object_fine(context: &Context<'_>, place: u32, t: &CType) -> Result<(), Refusal>
    ensures { Says (λ _. tt) result (both_fine (sized (context_view context.now) place (type_view t.now)) (fits_depth place (type_view t.now))) }
{
    let fine = has_size(&context.structs, t) && is_small(&context.structs, t);
    let sized = unless(place, Kind::BadSize, fine);
    both_fine(sized, fits_depth(place, t))
}

/// An object has a size, at most the greatest object's, and not too many stars and brackets.
#[tactic(auto, using(type_context::proofs::Judging::refused_part, crate::proofs::Objects::object_from))]
pub fn object_type(context: &Context<'_>, place: u32, t: CType) -> Result<CType, Refusal>
    ensures { Says type_view result (object_type (context_view context.now) place (type_view t)) }
{
    object_fine(context, place, &t)?;
    Ok(t)
}

/// The type of an object that a declarator declares.
#[tactic(auto, using(type_context::proofs::Judging::fails_part))]
pub fn object_declared(
    context: &Context<'_>,
    t: CType,
    d: &Declared<'_>,
) -> Result<CType, CompileFault>
    ensures { Gives type_view result (object_declared (context_view context.now) (type_view t) (declared_view d.now)) }
{
    let t = declared_type(context.alloc, t, d)?;
    as_fault(object_type(context, d.name.from, t))
}

// The size of an array, by its value: from 1 to the greatest object's size.
fn dimension_by(place: u32, value: Option<Num>) -> Result<u32, Refusal>
    ensures { Says (λ n. n) result (dimension_by place value) }
{
    let kind = Kind::BadSize;
    match value {
        Some(n) => {
            if 1 <= n.value && n.value <= i128::from(GREATEST_OBJECT) {
                Ok(n.value as u32)
            } else {
                Err(Refusal { place, kind })
            }
        }
        None => Err(Refusal { place, kind }),
    }
}

/// The size of an array: an integer constant expression, at its own place (C11 6.7.6.2).
pub fn dimension(context: &Context<'_>, e: &syntax::Expr, typed: &Expr) -> Result<u32, Refusal>
    ensures { Says (λ n. n) result (dimension (sources.expr_view e.now) (context_view context.now) (expr_view typed.now)) }
{
    dimension_by(node_place(e), constant_value(context, e, typed))
}
