//! The check.
ghost use Rattle.std.specs.Prelude.{◌≢◌, ℕ, IfOk};
ghost use Rattle.block_store.specs.Runs.{run, no_run};
ghost use Rattle.c_tree.specs.TypedViews.{typed_view};
ghost use Rattle.c_meaning.specs.Meaning.{program, start};
ghost use Rattle.flat_meaning.specs.Journals.{journal_picks};
ghost use Rattle.race_check.specs.Ends.{IsRaceEnd};

use crate::ending::RaceEnd;
use crate::finding::first_with;
use crate::walking::{Walked, walk};
use ak_trace::Journal;
use ak_words::NoMemory;
use block_meaning::SourceRun;
use c_tree::typed::Typed;
use std::alloc::Global;

/// What is told of the order of the turns that a journal tells, where a program has a run of it: its first race, with the touches of both turns that are
/// shown; or else the rule that its last turn breaks; or else that it is clean. The program runs twice where a race is found, and no turn is kept.
///
/// # Errors
///
/// Where memory is wanting.
pub fn race_check(alloc: Global, typed: Typed, journal: &Journal) -> Result<RaceEnd, NoMemory>
    requires { (turns : ℕ) → run (program (typed_view typed)) (start (typed_view typed)) (journal_picks journal.now.entries) ≢ no_run turns }
    ensures { IfOk result (λ e. IsRaceEnd (typed_view typed) (journal_picks journal.now.entries) e) }
{
    let mut run = SourceRun::new(alloc, typed)?;
    match walk(alloc, &mut run, journal)? {
        Walked::Clean => Ok(RaceEnd::Clean),
        Walked::Broke { rule, turns } => Ok(RaceEnd::Broke { rule, turns }),
        Walked::Raced(turn) => {
            let mut again = run.again()?;
            let (first, second) = first_with(&mut again, journal, &turn)?;
            Ok(RaceEnd::Race { first, second })
        }
    }
}
