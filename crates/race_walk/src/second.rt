ghost use Rattle.std.specs.Prelude.{◌≡◌, ◌<◌, List, slice_get, Some, MatchOption};
ghost use Rattle.race_rules.specs.Turns.{Turn};
ghost use Rattle.race_rules.specs.Races.{Race};
ghost use Rattle.race_rules.specs.Shown.{Shown};
ghost use Rattle.race_walk.specs.Views.{this_turn};

use crate::clock::known;
use crate::shown::shown;
use race_rules::Touch;

/// A turn with its clock, which tells the earlier turns that race with it.
#[derive(Drop)]
pub struct SecondTurn {
    /// Its number.
    pub turn: u64,
    /// Its thread.
    pub thread: u32,
    /// What it touched, in order.
    pub touches: Vec<Touch>,
    /// For each thread, one more than the number of its last turn that is before this one or is this one, or 0.
    pub clock: Vec<u64>,
}

impl SecondTurn {
    ghost use Rattle.race_walk.specs.Seconds.{IsTurnOf};

    /// Whether an earlier turn races with this one; where it does, the touches of that one and of this one that are shown.
    pub fn race_with(&self, turn: u64, thread: u32, touches: &[Touch]) -> Option<(Touch, Touch)>
        ensures { (ts : List Turn) → IsTurnOf ts self.now → turn < self.now.turn → slice_get ts turn ≡ Some (this_turn thread touches.now) → MatchOption result (Race ts turn self.now.turn → ⊥) (λ p. Shown ts turn self.now.turn p.0 p.1) }
    {
        if turn < known(self.clock.as_slice(), thread) {
            return None;
        }
        shown(touches, self.touches.as_slice())
    }
}
