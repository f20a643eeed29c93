//! The run of an order: a caller of the interpreter that is proved from its contracts alone.

ghost use Rattle.std.specs.Prelude.{◌≡◌, IfOk, map};
ghost use Rattle.block_store.specs.Runs.{run_from};
ghost use Rattle.c_meaning.specs.Meaning.{program};
ghost use Rattle.block_meaning.specs.Running.{running_of};
ghost use Rattle.run_tests.specs.Orders.{pick_of, comes_to};

use ak_words::{NoMemory, Rule};
use block_meaning::{Answer, SourceRun, Turned};

/// A pair of an order: a thread, and the answer that its turn is told.
#[derive(Clone, Copy, Debug, PartialEq, Eq)]
pub struct Pick {
    /// The thread's number: 0 is the one that is in main.
    pub thread: u32,
    /// The answer.
    pub answer: Answer,
}

/// Where the run of an order comes to.
#[derive(Clone, Copy, Debug, PartialEq, Eq)]
pub enum OrderEnd {
    /// To the state behind the order's last turn.
    Reached,
    /// After so many turns, to one that breaks this rule.
    Broke(Rule, usize),
    /// After so many turns, to one that is none: its thread doesn't run, waits or doesn't take the answer.
    NoRun(usize),
}

/// Takes the turns of an order, from where the run stands, as far as one that comes to nothing.
pub fn take_turns(run: &mut SourceRun, order: &[Pick]) -> Result<OrderEnd, NoMemory>
    ensures { IfOk result (λ end. run_from (program (running_of run.old).typed) (map pick_of order.now) 0 (running_of run.old).state ≡ comes_to end (running_of run.new).state) }
{
    for (k, pick) in order.iter().enumerate() {
        if !run.runs(pick.thread) {
            return Ok(OrderEnd::NoRun(k));
        }
        match run.turn(pick.thread, pick.answer)? {
            Turned::Went => {}
            Turned::Ended(_) => {}
            Turned::Broke(rule, _) => return Ok(OrderEnd::Broke(rule, k)),
            Turned::Blocked => return Ok(OrderEnd::NoRun(k)),
            Turned::Unfit => return Ok(OrderEnd::NoRun(k)),
        }
    }
    Ok(OrderEnd::Reached)
}
