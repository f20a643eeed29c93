ghost use Rattle.std.specs.Prelude.{◌≡◌, ◌+◌, ◌<◌, ◌≤◌, [], ◌∷◌, ◌++◌, length, slice_get, IfOk, All};
ghost use Rattle.handle_table.specs.Frame.{HasSlot, listed_handles};

use crate::frame::PinFrame;
use ak_words::NoMemory;
use handle_words::is_handle;
use std::alloc::Global;
use std::marker::Model;

/// The handle words that pin objects, from all frames.
#[derive(Debug, Drop)]
pub struct PinWords {
    room: u32,
    words: Vec<u64>,
}

// Clauses see the list, and how many words there may be.
impl Model for PinWords {
    ghost use Rattle.std.specs.Prelude.{◌^◌, ◌<◌, ◌≤◌};
    ghost use Rattle.std.specs.Vec.{vec_len, vec_capacity};
    ghost use Rattle.handle_table.specs.Words.{WordList};

    ghost Value = { WordList };

    ghost view = { λ w. record { room = w.room; words = w.words.items } };

    ghost invariant = { λ w. (vec_len w.words ≤ w.room) × (w.room ≤ vec_capacity w.words) × (w.room < 2 ^ 32) };
}

impl PinWords {
    /// Makes an empty list, and takes the memory for `n` words.
    pub fn with_room(alloc: Global, n: u32) -> Result<PinWords, NoMemory>
        ensures { IfOk result (λ w. w ≡ record { room = n; words = [] }) }
    {
        let words = Vec::with_capacity(alloc, n as usize)?;
        Ok(PinWords { room: n, words })
    }

    /// How many words there are.
    pub fn len(&self) -> u32
        ensures number { result ≡ length self.now.words }
        ensures within { length self.now.words ≤ self.now.room }
    {
        self.words.len() as u32
    }

    /// The word at the index, if there is one.
    pub fn get(&self, i: u32) -> Option<u64>
        ensures { result ≡ slice_get self.now.words i }
    {
        self.words.get(i as usize).copied()
    }

    /// Takes all words away.
    pub fn clear(&mut self)
        ensures { self.new ≡ record self.old { words = [] } }
    {
        self.words.clear();
    }

    // Puts a word behind the others.
    fn push(&mut self, word: u64)
        requires { length self.old.words < self.old.room }
        ensures { self.new ≡ record self.old { words = self.old.words ++ word ∷ [] } }
    {
        match self.words.push(word) {
            Ok(()) => {}
            Err(_) => unreachable!(),
        }
    }
}

/// Puts the handle words of the listed slots behind the others; `first` is the first slot of the frame that the list
/// is of.
pub fn unite(frame: &PinFrame, first: u32, listed: &[u32], into: &mut PinWords)
    requires slots { All (λ s. HasSlot frame.now (first + s)) listed.now }
    requires room { length into.old.words + length (listed_handles frame.now first listed.now) ≤ into.old.room }
    ensures { into.new ≡ record into.old { words = into.old.words ++ listed_handles frame.now first listed.now } }
{
    let slots = frame.slots();
    for slot in listed {
        let word = slots[first as usize + *slot as usize].word;
        if is_handle(word) {
            into.push(word);
        }
    }
}
