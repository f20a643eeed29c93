//! Outcomes that are gone on from.
ghost use Rattle.c_typing.specs.Faults.{typed};
ghost use Rattle.type_context.specs.inner.Outcomes.{joined};
ghost use Rattle.type_nodes.specs.Nodes.{Finishes};
ghost use Rattle.c_types.specs.inner.Gathering.{IsOutcome};

use c_lex::CompileFault;
use type_context::faults::both;

/// An outcome, unless memory ran out: then nothing behind it is judged.
pub(crate) fn outcome<T: Drop>(
    r: Result<T, CompileFault>,
) -> Result<Result<T, CompileFault>, CompileFault>
    ensures { IsOutcome r result }
{
    match r {
        Err(CompileFault::NoMemory) => Err(CompileFault::NoMemory),
        r => Ok(r),
    }
}

/// Whether both are fine, whatever the second is.
pub(crate) fn fine_with<T: Drop>(
    all: Result<(), CompileFault>,
    next: Result<T, CompileFault>,
) -> Result<(), CompileFault>
    ensures { Finishes (λ (u : Unit {0}). u) (joined all next) (λ _. typed (tt {0})) result }
{
    both(all, next)?;
    Ok(())
}
