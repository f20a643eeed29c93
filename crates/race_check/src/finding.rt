//! The first turn that races with a later one.
ghost use Rattle.std.specs.Prelude.{◌≡◌, IfOk};
ghost use Rattle.flat_meaning.specs.Journals.{journal_picks};
ghost use Rattle.c_meaning.specs.Touching.{turns_of};
ghost use Rattle.block_meaning.specs.Running.{running_of};
ghost use Rattle.race_check.specs.Ends.{IsTold};
ghost use Rattle.race_check.specs.inner.Steps.{Begins, HasRun, IsSecond};

use crate::answers::told;
use crate::ending::Side;
use ak_trace::Journal;
use ak_words::NoMemory;
use block_meaning::{SourceRun, Turned};
use race_walk::SecondTurn;

/// The two turns of the first race, whose second turn this is: goes along the turns once more, up to the first that races with it.
pub fn first_with(
    run: &mut SourceRun,
    journal: &Journal,
    second: &SecondTurn,
) -> Result<(Side, Side), NoMemory>
    requires begins { Begins (running_of run.old) }
    requires has_run { HasRun (running_of run.old).typed (journal_picks journal.now.entries) }
    requires second { IsSecond (turns_of (running_of run.old).typed (journal_picks journal.now.entries)) second.now }
    ensures { IfOk result (λ p. IsTold (turns_of (running_of run.old).typed (journal_picks journal.now.entries)) p.0 p.1) }
{
    let mut turn = 0;
    for (thread, answer) in journal.walk() {
        if turn >= second.turn {
            unreachable!()
        }
        match run.turn(thread, told(answer))? {
            Turned::Went | Turned::Ended(_) => {
                if let Some((one, other)) = second.race_with(turn, thread, run.touched()) {
                    let first = Side {
                        thread,
                        place: one.place,
                        turn,
                    };
                    let later = Side {
                        thread: second.thread,
                        place: other.place,
                        turn: second.turn,
                    };
                    return Ok((first, later));
                }
                turn += 1;
            }
            Turned::Broke(_, _) | Turned::Blocked | Turned::Unfit => unreachable!(),
        }
    }
    unreachable!()
}
