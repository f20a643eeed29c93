//! Two checks of one journal: a caller of race_check that is proved from its contracts alone.

ghost use Rattle.std.specs.Prelude.{◌≡◌, ◌≢◌, ℕ, IfOk};
ghost use Rattle.block_store.specs.Runs.{run, no_run};
ghost use Rattle.c_tree.specs.TypedViews.{typed_view};
ghost use Rattle.c_meaning.specs.Meaning.{program, start};
ghost use Rattle.flat_meaning.specs.Journals.{journal_picks};

use ak_trace::Journal;
use ak_words::NoMemory;
use c_tree::typed::Typed;
use race_check::{RaceEnd, race_check};
use std::alloc::Global;

/// Checks a journal twice, of two trees that are the same: both checks tell the same.
pub fn check_twice(
    alloc: Global,
    one: Typed,
    other: Typed,
    journal: &Journal,
) -> Result<(RaceEnd, RaceEnd), NoMemory>
    requires same { typed_view other ≡ typed_view one }
    requires has_run { (turns : ℕ) → run (program (typed_view one)) (start (typed_view one)) (journal_picks journal.now.entries) ≢ no_run turns }
    ensures { IfOk result (λ ends. ends.0 ≡ ends.1) }
{
    race_check::laws::one_end_alone();
    let first = race_check(alloc, one, journal)?;
    let second = race_check(alloc, other, journal)?;
    Ok((first, second))
}
