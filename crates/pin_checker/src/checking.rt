//! The check.

ghost use Rattle.std.specs.Prelude.{◌≡◌, IfOk};
ghost use Rattle.struct_ir.specs.WholeViews.{ir_view};
ghost use Rattle.pin_checker.specs.Answers.{IfRefused, IsRefused};
ghost use Rattle.pin_checker.specs.CheckedViews.{program_in};
ghost use Rattle.pin_checker.specs.Safe.{IsSafe};

use crate::checked::Checked;
use crate::fault::CheckFault;
use crate::reports::first_fault;
use std::alloc::Global;
use struct_ir::Ir;

impl Checked {
    /// The code, which is safe for moves.
    #[tactic(auto, using(crate::proofs::Main::accepted_is))]
    pub fn ir(&self) -> &Ir
        ensures same { ir_view result.now ≡ program_in self.now }
        ensures safe { IsSafe (program_in self.now) }
    {
        &self.ir
    }

    /// The code itself, which is safe for moves.
    pub fn into_ir(self) -> Ir
        ensures same { ir_view result ≡ program_in self }
        ensures safe { IsSafe (program_in self) }
    {
        self.ir
    }
}

/// Accepts code exactly where it is safe for moves, and else tells the first node that fails and
/// its first reason.
///
/// # Errors
///
/// `Refused` with that node's place and reason, or `NoMemory`.
#[tactic(auto, using(crate::proofs::Main::accepted_is, crate::proofs::Main::refused_is))]
pub fn check(alloc: Global, ir: Ir) -> Result<Checked, CheckFault>
    ensures accepted { IfOk result (λ c. program_in c ≡ ir_view ir) }
    ensures refused { IfRefused result (λ place why. IsRefused (ir_view ir) place why) }
{
    match first_fault(alloc, &ir)? {
        None => Ok(Checked { ir }),
        Some(fault) => Err(CheckFault::Refused {
            place: fault.place,
            why: fault.why,
        }),
    }
}
