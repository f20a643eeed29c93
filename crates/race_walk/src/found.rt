ghost use Rattle.std.specs.Prelude.{ℕ, IfOk, MatchOption};
ghost use Rattle.race_rules.specs.Races.{Race, Second};
ghost use Rattle.race_walk.specs.Seconds.{IsTurnOf};
ghost use Rattle.race_walk.specs.Steps.{turns_of, IsFirstWith, IsFound};

use crate::second::SecondTurn;
use crate::step::{Found, Side, Step};
use crate::walk::RaceWalk;
use std::alloc::{AllocError, Global};

/// The least of these turns that races with a later one of them.
fn first_with(second: &SecondTurn, steps: &[Step]) -> Option<Found>
    requires { IsTurnOf (turns_of steps.now) second.now }
    ensures { MatchOption result ((i : ℕ) → Race (turns_of steps.now) i second.now.turn → ⊥) (IsFirstWith (turns_of steps.now) second.now.turn) }
{
    for turn in 0..second.turn {
        let step = &steps[turn as usize];
        let thread = step.thread;
        match second.race_with(turn, thread, step.touches.as_slice()) {
            Some((one, other)) => {
                let first = Side {
                    turn,
                    thread,
                    touch: one,
                };
                let second = Side {
                    turn: second.turn,
                    thread: second.thread,
                    touch: other,
                };
                return Some(Found { first, second });
            }
            None => {}
        }
    }
    None
}

/// The first race of these turns: its second turn is the least of all races, and its first the least with that.
pub fn find_race(alloc: Global, steps: &[Step]) -> Result<Option<Found>, AllocError>
    ensures { IfOk result (λ o. MatchOption o ((j : ℕ) → Second (turns_of steps.now) j → ⊥) (IsFound (turns_of steps.now))) }
{
    let mut walk = RaceWalk::new(alloc);
    for i in 0..steps.len() {
        let step = &steps[i];
        let touches = step.touches.as_slice();
        if walk.turn(alloc, step.thread, touches)? {
            let second = walk.second(alloc, step.thread, touches)?;
            return Ok(first_with(&second, steps));
        }
    }
    Ok(None)
}
