//! The calls of a shelf or a sink in memory, of which some are to fail.
ghost use Rattle.std.specs.Prelude.{◌≡◌, ◌<◌, ◌^◌, ◌↔◌, IsTrue, All, Contains};

use std::marker::Model;

/// How many calls were made, and the numbers of those that are to fail, from 1.
#[derive(Debug, Drop)]
pub struct Calls {
    made: u64,
    failing: Vec<u32>,
}

impl Model for Calls {
    ghost use Rattle.ak_io.specs.Calls.{CallList};

    ghost Value = { CallList };

    ghost view = { λ calls. record { made = calls.made; failing = calls.failing.items } };
}

impl Calls {
    ghost use Rattle.ak_io.specs.Calls.{none_made, after_call, IsListed};

    /// No call yet.
    pub fn new(failing: Vec<u32>) -> Calls
        ensures { result ≡ none_made failing.items }
    {
        Calls { made: 0, failing }
    }

    /// Counts the next call, and says whether it is to fail.
    pub fn next_fails(&mut self) -> bool
        ensures listed { IsTrue result ↔ IsListed self.old }
        ensures made { self.new ≡ after_call self.old }
    {
        self.made = self.made.saturating_add(1);
        is_listed(&self.failing, self.made)
    }
}

/// Whether the number is on the list.
fn is_listed(failing: &[u32], number: u64) -> bool
    ensures listed { IsTrue result ↔ Contains failing.now number }
    ensures narrow { All (λ listed. listed < 2 ^ 32) failing.now }
{
    failing.iter().any(|listed| u64::from(*listed) == number)
}
