//! Outcomes of the parts of a node, in the order of the text.
ghost use Rattle.c_tree.specs.Typed.{Ty};
ghost use Rattle.c_tree.specs.TypedViews.{type_view};
ghost use Rattle.c_typing.specs.Faults.{Judged, Gives};
ghost use Rattle.type_context.specs.inner.Outcomes.{joined};
ghost use Rattle.type_context.specs.Telling.{Says, both_fine};
ghost use Rattle.type_context.specs.Rows.{IsPushed, IsAppended};

use crate::faults::{both, both_or_refusal};
use c_tree::copies::copy_type;
use c_lex::{CompileFault, Refusal};
use c_tree::typed::CType;
use std::alloc::Global;

/// Whether two things are fine.
pub fn both_fine(a: Result<(), Refusal>, b: Result<(), Refusal>) -> Result<(), Refusal>
    ensures { (j k : Judged (Unit {0})) → Says (λ _. tt) a j → Says (λ _. tt) b k → Says (λ _. tt) result (both_fine j k) }
{
    both_or_refusal(a, b)?;
    Ok(())
}

/// A type's outcome once more.
pub fn again(alloc: Global, t: &Result<CType, CompileFault>) -> Result<CType, CompileFault>
    ensures { (j : Judged Ty) → Gives type_view t.now j → Gives type_view result j }
{
    match t {
        Ok(t) => Ok(copy_type(alloc, t)?),
        Err(fault) => Err(*fault),
    }
}

/// One more behind others.
pub fn pushed<T: Drop>(
    all: Result<Vec<T>, CompileFault>,
    next: Result<T, CompileFault>,
) -> Result<Vec<T>, CompileFault>
    ensures { IsPushed (joined all next) result }
{
    let (mut all, next) = both(all, next)?;
    all.push(next)?;
    Ok(all)
}

/// Others behind others.
pub fn appended<T: Drop>(
    all: Result<Vec<T>, CompileFault>,
    next: Result<Vec<T>, CompileFault>,
) -> Result<Vec<T>, CompileFault>
    ensures { IsAppended (joined all next) result }
{
    let (mut all, mut next) = both(all, next)?;
    all.append(&mut next)?;
    Ok(all)
}
