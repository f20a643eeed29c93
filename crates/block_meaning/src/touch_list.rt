//! Touches in order, of which two need no memory.

ghost use Rattle.std.specs.Prelude.{◌≡◌, ◌++◌, ◌∷◌, [], IfOk, OnOk};
ghost use Rattle.block_meaning.specs.Threads.{touches_in};

use ak_words::NoMemory;
use race_rules::Touch;
use std::alloc::Global;
use std::array::from_ref;

/// What a turn touched, in order: most turns touch once or twice.
#[derive(Drop)]
pub enum Touches {
    /// Nothing.
    None,
    /// Once.
    One(Touch),
    /// Twice.
    Two([Touch; 2]),
    /// More often.
    More(Vec<Touch>),
}

impl Touches {
    /// One touch more.
    pub fn push(&mut self, alloc: Global, touch: Touch) -> Result<(), NoMemory>
        ensures { OnOk result (touches_in self.new ≡ touches_in self.old ++ touch ∷ []) }
    {
        match self {
            Touches::None => {
                *self = Touches::One(touch);
                Ok(())
            }
            Touches::One(first) => {
                *self = Touches::Two([*first, touch]);
                Ok(())
            }
            Touches::Two(all) => {
                let more = with(alloc, all, touch)?;
                *self = Touches::More(more);
                Ok(())
            }
            Touches::More(all) => {
                all.push(touch)?;
                Ok(())
            }
        }
    }

    /// The touches.
    pub fn all(&self) -> &[Touch]
        ensures { result.now ≡ touches_in self.now }
    {
        match self {
            Touches::None => &[],
            Touches::One(only) => from_ref(only),
            Touches::Two(all) => all,
            Touches::More(all) => all,
        }
    }
}

// Touches, and one more.
fn with(alloc: Global, before: &[Touch], touch: Touch) -> Result<Vec<Touch>, NoMemory>
    ensures { IfOk result (λ all. all.items ≡ before.now ++ touch ∷ []) }
{
    let mut all = Vec::with_capacity(alloc, 4)?;
    all.extend_from_slice(before)?;
    all.push(touch)?;
    Ok(all)
}
