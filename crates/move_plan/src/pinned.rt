ghost use Rattle.std.specs.Prelude.{◌≡◌, ◌<◌, ◌≤◌, false, IfOk};
ghost use Rattle.std.specs.FinSet as set;
ghost use Rattle.move_plan.specs.Holding.{is_pinned};

use ak_words::NoMemory;
use std::alloc::Global;
use std::collections::HashSet;
use std::marker::Model;

/// The places of the objects that may not move.
#[derive(Drop)]
pub struct Pins {
    room: u32,
    places: HashSet<u32>,
}

// Clauses see the set, and how many places there may be.
impl Model for Pins {
    ghost use Rattle.std.specs.Prelude.{◌+◌, ◌≤◌, nat_eq};
    ghost use Rattle.std.specs.FinSet as set;
    ghost use Rattle.std.specs.HashSet.{keys, hash_set_len, spare, IsUnique};
    ghost use Rattle.move_plan.specs.Holding.{PinSet, pin_set_code};

    ghost Value = { PinSet };

    ghost coded = { pin_set_code };

    ghost view = { λ p. record { room = p.room; places = set.from_list (keys p.places) } };

    ghost invariant = { λ p. (hash_set_len p.places ≤ p.room) × (p.room ≤ hash_set_len p.places + spare p.places) × IsUnique nat_eq p.places };
}

impl Pins {
    /// Makes an empty set, and takes the memory for `n` places.
    pub fn with_room(alloc: Global, n: u32) -> Result<Pins, NoMemory>
        ensures { IfOk result (λ p. p ≡ record { room = n; places = set.empty }) }
    {
        let places = HashSet::with_capacity(alloc, n as usize)?;
        Ok(Pins { room: n, places })
    }

    /// Adds a place. One that is there takes no room.
    pub fn add(&mut self, at: u32)
        requires { is_pinned self.old at ≡ false → set.len self.old.places < self.old.room }
        ensures { self.new ≡ record self.old { places = set.insert self.old.places at } }
    {
        if self.places.contains(&at) {
            return;
        }
        match self.places.insert(at) {
            Ok(_) => {}
            Err(_) => unreachable!(),
        }
    }

    /// Whether a place is in the set.
    pub fn has(&self, at: u32) -> bool
        ensures member { result ≡ is_pinned self.now at }
        ensures within { set.len self.now.places ≤ self.now.room }
    {
        self.places.contains(&at)
    }

    /// Takes all places away.
    pub fn clear(&mut self)
        ensures { self.new ≡ record self.old { places = set.empty } }
    {
        self.places.clear();
    }
}
