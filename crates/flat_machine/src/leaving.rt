//! Objects that leave once a barrier has served.

ghost use Rattle.std.specs.Prelude.{◌≡◌, ◌<◌, ◌∷◌, ◌++◌, [], if◌then◌else◌, length, Some, None, IsSome, IfOk};
ghost use Rattle.arena_meaning.specs.Changes.{without_words};
ghost use Rattle.flat_meaning.specs.Memory.{words_leaving};

use ak_words::NoMemory;
use defrag_move::Arena;
use std::alloc::Global;
use std::marker::Model;

// How many words there can be: 64 threads are served.
const WORDS: usize = 64;

/// While a barrier serves, the words of reallocs whose objects leave behind the last allocation, in memory that is reserved once.
#[derive(Drop)]
pub(crate) struct Leaving {
    serves: bool,
    words: Vec<u64>,
}

// Clauses see the words, while a barrier serves.
impl Model for Leaving {
    ghost use Rattle.std.specs.Prelude.{ℕ, List, Option, Some, None, if◌then◌else◌, vec_capacity, ◌≤◌};

    ghost Value = { Option (List ℕ) };

    ghost view = { λ l. if l.serves then Some l.words.items else None };

    ghost invariant = { λ l. 64 ≤ vec_capacity l.words };
}

impl Leaving {
    /// No barrier serves.
    pub(crate) fn none(alloc: Global) -> Result<Leaving, NoMemory>
        ensures { IfOk result (λ l. l ≡ None) }
    {
        let words = Vec::with_capacity(alloc, WORDS)?;
        Ok(Leaving {
            serves: false,
            words,
        })
    }

    /// A barrier begins to serve.
    pub(crate) fn begin(&mut self)
        ensures { self.new ≡ Some [] }
    {
        self.words.clear();
        self.serves = true;
    }

    /// The object of a word leaves, too, if it is live.
    pub(crate) fn add_if(&mut self, live: bool, word: u64)
        requires serves { IsSome self.old }
        requires room { length (words_leaving self.old) < 64 }
        ensures { self.new ≡ if live then Some (words_leaving self.old ++ word ∷ []) else self.old }
    {
        if live {
            self.words.push_reserved(word);
        }
    }

    /// The barrier has served: the objects leave, in order, and a word that is no longer live is passed over.
    pub(crate) fn leave(&mut self, arena: &mut Arena)
        ensures over { self.new ≡ None }
        ensures left { arena.new ≡ without_words (words_leaving self.old) arena.old }
    {
        if self.serves {
            end_all(arena, &self.words);
            self.serves = false;
        }
    }
}

// Ends the live objects of words, in order.
fn end_all(arena: &mut Arena, words: &[u64])
    ensures { arena.new ≡ without_words words.now arena.old }
{
    for index in 0..words.len() {
        let _ = arena.free(words[index]);
    }
}
