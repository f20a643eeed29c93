//! What the draws from a seed choose.
ghost use Rattle.std.specs.Prelude.{◌≡◌, ◌+◌, ◌%◌, Some};
ghost use Rattle.flat_rules.specs.Draws as draws;

/// What three draws choose for a function: its slot, how many bytes it asks for, and the first of them.
#[derive(Clone, Copy, Debug, PartialEq, Eq)]
pub struct Choice {
    pub slot: u32,
    pub bytes: u32,
    pub byte: u32,
}

/// The draws from a seed, of which some have been made.
#[derive(Drop)]
pub struct Draws {
    x: u32,
}

impl Draws {
    /// The draws from this seed, of which none has been made.
    pub fn of_seed(seed: u64) -> Draws
        ensures { result.x ≡ draws.seeded (Some seed) }
    {
        Draws {
            x: (seed % 2147483648) as u32,
        }
    }

    // Makes a draw.
    fn draw(&mut self) -> u32
        ensures drawn { result ≡ draws.drawn self.new.x }
        ensures next { self.new.x ≡ draws.next_draw self.old.x }
    {
        self.x = ((1103515245 * self.x as u64 + 12345) % 2147483648) as u32;
        self.x / 65536
    }

    /// Makes three draws, for a function.
    pub fn choose(&mut self) -> Choice
        ensures slot { result.slot ≡ draws.drawn (draws.next_draw self.old.x) % 64 }
        ensures bytes { result.bytes ≡ 1 + draws.drawn (draws.next_draw (draws.next_draw self.old.x)) % 1000 }
        ensures byte { result.byte ≡ draws.drawn self.new.x % 100 }
        ensures next { self.new.x ≡ draws.next_draw (draws.next_draw (draws.next_draw self.old.x)) }
    {
        let slot = self.draw() % 64;
        let bytes = 1 + self.draw() % 1000;
        let byte = self.draw() % 100;
        Choice { slot, bytes, byte }
    }
}
