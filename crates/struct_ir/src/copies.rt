//! Copies of what nodes hold, with slots and lists left out where that is said.

ghost use Rattle.std.specs.Prelude.{◌≡◌, map, IfOk};
ghost use Rattle.c_tree.specs.TypedViews.{literal_view};
ghost use Rattle.struct_ir.specs.Lists.{bare_place, bare_step, bare_call};
ghost use Rattle.struct_ir.specs.Views.{place_view, action_view, step_view, call_view};

use crate::code::{Action, CallNode, Place, Places, StepNode};
use ak_words::NoMemory;
use c_tree::copies::copy_pieces;
use c_tree::typed::Literal;
use smallvec::SmallVec;
use std::alloc::Global;

/// The same action.
///
/// # Errors
///
/// Only want of memory.
pub fn copy_action(alloc: Global, a: &Action) -> Result<Action, NoMemory>
    ensures { IfOk result (λ x. action_view x ≡ action_view a.now) }
{
    match a {
        Action::Load(how) => Ok(Action::Load(*how)),
        Action::Store(how) => Ok(Action::Store(*how)),
        Action::Copy { align, same } => Ok(Action::Copy {
            align: *align,
            same: *same,
        }),
        Action::Malloc => Ok(Action::Malloc),
        Action::Calloc => Ok(Action::Calloc),
        Action::Realloc => Ok(Action::Realloc),
        Action::Free => Ok(Action::Free),
        Action::Change(how, ty) => Ok(Action::Change(*how, *ty)),
        Action::Compare(ty) => Ok(Action::Compare(*ty)),
        Action::Print(pieces) => Ok(Action::Print(copy_pieces(alloc, pieces)?)),
        Action::Lock => Ok(Action::Lock),
        Action::Unlock => Ok(Action::Unlock),
        Action::Destroy => Ok(Action::Destroy),
        Action::Start(function) => Ok(Action::Start(*function)),
        Action::Join => Ok(Action::Join),
    }
}

fn bare_place(a: &Place) -> Place
    ensures { place_view result ≡ bare_place (place_view a.now) }
{
    Place {
        base: a.base,
        index: a.index,
        scale: a.scale,
        offset: a.offset,
        slot: None,
    }
}

fn bare_places(alloc: Global, places: &[Place]) -> Result<Places, NoMemory>
    ensures { IfOk result (λ v. map place_view v.items ≡ map bare_place (map place_view places.now)) }
{
    let mut out = SmallVec::new(alloc);
    for a in places {
        out.push(bare_place(a))?;
    }
    Ok(out)
}

// The step without its list, and without the slots of its places.
pub(crate) fn bare_step(alloc: Global, s: &StepNode) -> Result<StepNode, NoMemory>
    ensures { IfOk result (λ x. step_view x ≡ bare_step (step_view s.now)) }
{
    Ok(StepNode {
        action: copy_action(alloc, &s.action)?,
        places: bare_places(alloc, &s.places)?,
        to: s.to,
        temps: SmallVec::from_slice(alloc, &s.temps)?,
        slots: SmallVec::new(alloc),
    })
}

// The call without its list.
pub(crate) fn bare_call(alloc: Global, c: &CallNode) -> Result<CallNode, NoMemory>
    ensures { IfOk result (λ x. call_view x ≡ bare_call (call_view c.now)) }
{
    Ok(CallNode {
        to: c.to,
        function: c.function,
        temps: c.temps.to_vec(alloc)?,
        slots: Vec::new(alloc),
    })
}

fn copy_literal(alloc: Global, l: &Literal) -> Result<Literal, NoMemory>
    ensures { IfOk result (λ x. literal_view x ≡ literal_view l.now) }
{
    Ok(Literal {
        bytes: l.bytes.to_vec(alloc)?,
    })
}

/// The same literals.
///
/// # Errors
///
/// Only want of memory.
pub fn copy_literals(alloc: Global, literals: &[Literal]) -> Result<Vec<Literal>, NoMemory>
    ensures { IfOk result (λ v. map literal_view v.items ≡ map literal_view literals.now) }
{
    let mut out = Vec::new(alloc);
    for l in literals {
        out.push(copy_literal(alloc, l)?)?;
    }
    Ok(out)
}
