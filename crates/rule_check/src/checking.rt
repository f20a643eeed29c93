//! The check.

ghost use Rattle.std.specs.Prelude.{◌≡◌, ◌≤◌, [], IfOk, map};
ghost use Rattle.block_store.specs.Runs.{first_state};
ghost use Rattle.c_tree.specs.TypedViews.{typed_view};
ghost use Rattle.c_meaning.specs.Meaning.{program, start};
ghost use Rattle.block_meaning.specs.Running.{running_of};
ghost use Rattle.rule_check.specs.Checks.{IsCheck, IsCheckOf};
ghost use Rattle.rule_check.specs.Reports.{pick_of, report_view};

use crate::choosing::next_turn;
use crate::report::RuleReport;
use crate::threads::{follow, list_running};
use ak_trace::Verdict;
use ak_words::NoMemory;
use block_meaning::{Answer, SourceRun, Turned};
use c_tree::typed::Typed;
use flat_rules::draws::{next_draw, seeded};
use std::alloc::Global;

// Goes through the turns of the seeded order, from the start of a run on, and tells what is found.
fn walk(
    alloc: Global,
    run: &mut SourceRun,
    order: &mut Vec<(u32, Answer)>,
    seed: u64,
    most: u32,
) -> Result<Verdict, NoMemory>
    requires begins { (running_of run.old).state ≡ first_state (program (running_of run.old).typed) (start (running_of run.old).typed) }
    requires empty { order.old.items ≡ [] }
    ensures { IfOk result (λ v. IsCheck (program (running_of run.old).typed) (start (running_of run.old).typed) seed most (record { verdict = v; order = map pick_of order.new.items; output = (running_of run.new).state.world.output })) }
{
    let mut threads = Vec::new(alloc);
    list_running(run, &mut threads)?;
    let mut x = seeded(Some(seed));
    for turns in 0..most {
        x = next_draw(x);
        let made = run.threads();
        let Some(next) = next_turn(run, &threads, x / 65536)? else {
            return Ok(Verdict::AllBlocked { turns });
        };
        match next.turned {
            Turned::Broke(rule, place) => return Ok(Verdict::Broke { rule, place, turns }),
            Turned::Blocked => return Err(NoMemory),
            Turned::Unfit => return Err(NoMemory),
            Turned::Went => {
                order.push((next.thread, next.answer))?;
                follow(run, &mut threads, next.thread, made)?;
            }
            Turned::Ended(exit) => {
                order.push((next.thread, next.answer))?;
                return Ok(Verdict::Ended {
                    exit,
                    turns: turns + 1,
                });
            }
        }
    }
    Ok(Verdict::TurnsSpent { turns: most })
}

/// Runs a program in the order of a seed, so many turns at most, and reports the first rule that it breaks, or else how it ends.
///
/// # Errors
///
/// Where memory is wanting.
pub fn rule_check(alloc: Global, typed: Typed, seed: u64, most: u32) -> Result<RuleReport, NoMemory>
    requires { (1 ≤ most) × (most ≤ 16000000) }
    ensures { IfOk result (λ r. IsCheckOf (typed_view typed) seed most (report_view r)) }
{
    let mut run = SourceRun::new(alloc, typed)?;
    let mut order = Vec::new(alloc);
    let verdict = walk(alloc, &mut run, &mut order, seed, most)?;
    Ok(RuleReport {
        verdict,
        order,
        output: run.into_output(),
    })
}
