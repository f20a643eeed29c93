//! Copies of what nodes hold, just as it is.

ghost use Rattle.std.specs.Prelude.{◌≡◌, IfOk};
ghost use Rattle.struct_ir.specs.Views.{step_view, call_view};

use crate::code::{CallNode, StepNode};
pub use crate::copies::{copy_action, copy_literals};
use ak_words::NoMemory;
use smallvec::SmallVec;
use std::alloc::Global;

/// The same step.
///
/// # Errors
///
/// Only want of memory.
pub fn copy_step(alloc: Global, s: &StepNode) -> Result<StepNode, NoMemory>
    ensures { IfOk result (λ x. step_view x ≡ step_view s.now) }
{
    Ok(StepNode {
        action: copy_action(alloc, &s.action)?,
        places: SmallVec::from_slice(alloc, &s.places)?,
        to: s.to,
        temps: SmallVec::from_slice(alloc, &s.temps)?,
        slots: SmallVec::from_slice(alloc, &s.slots)?,
    })
}

/// The same call.
///
/// # Errors
///
/// Only want of memory.
pub fn copy_call(alloc: Global, c: &CallNode) -> Result<CallNode, NoMemory>
    ensures { IfOk result (λ x. call_view x ≡ call_view c.now) }
{
    Ok(CallNode {
        to: c.to,
        function: c.function,
        temps: c.temps.to_vec(alloc)?,
        slots: c.slots.to_vec(alloc)?,
    })
}
