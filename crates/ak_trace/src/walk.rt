//! The turns that a journal tells, one after the other.
ghost use Rattle.std.specs.Prelude.{◌≡◌, ℕ, List, [], ◌∷◌, ◌++◌, Option, option_to_list, MatchOption};
ghost use Rattle.std.specs.Iterator.{YieldsFirst, item_count};
ghost use Rattle.ak_trace.specs.declared.order.Answer.{Answer};
ghost use Rattle.ak_trace.specs.Order.{turns_of, order, step_answers, served_answer};
ghost use Rattle.ak_trace.specs.Walks.{left_of_entry};

use crate::entry::Entry;
use crate::how::{END, MALLOC_GOT, MALLOC_NULL, PLAIN_STEP, THREAD_MADE, THREAD_REFUSED};
use crate::journal::Journal;
use crate::kind::{SERVED, TURN};
use crate::order::Answer;
use std::marker::Model;

/// What is left of one entry's turns: the local ones, and the one that it ends with.
#[derive(Clone, Copy, Debug)]
struct Begun {
    thread: u8,
    local: u16,
    last: Option<Answer>,
}

/// What is left of the turns that a journal tells: each a thread, and what that turn is told. It takes no memory.
#[derive(Debug, Drop)]
pub struct OrderWalk<'a> {
    begun: Begun,
    behind: &'a [Entry],
}

impl<'a> Model for OrderWalk<'a> {
    ghost Value = { List (ℕ × Answer) };

    ghost view = { λ w. left_of_entry w.begun ++ order w.behind.now };
}

impl Journal {
    /// The turns that the entries tell, one after the other.
    pub fn walk(&self) -> OrderWalk<'_>
        ensures { result ≡ order self.now.entries }
    {
        OrderWalk {
            begun: Begun {
                thread: 0,
                local: 0,
                last: None,
            },
            behind: self.entries(),
        }
    }
}

impl<'a> Iterator for OrderWalk<'a> {
    type Item = (u32, Answer);

    ghost next_gives = { YieldsFirst (λ left. left) };

    ghost remaining = { item_count (λ left. left) };

    fn next(&mut self) -> Option<(u32, Answer)> {
        loop {
            if let Some(turn) = self.begun.next() {
                return Some(turn);
            }
            let (first, behind) = self.behind.split_first()?;
            self.begun = Begun::new(first);
            self.behind = behind;
        }
    }
}

impl Begun {
    fn new(e: &Entry) -> Begun
        ensures { left_of_entry result ≡ turns_of e.now }
    {
        let (local, last) = match e.kind {
            TURN => (e.local, step_answer(e.how)),
            SERVED => (0, Some(served_answer(e.how))),
            _ => (0, None),
        };
        Begun {
            thread: e.thread,
            local,
            last,
        }
    }

    fn next(&mut self) -> Option<(u32, Answer)>
        ensures { YieldsFirst left_of_entry self.old result self.new }
    {
        let answer = if self.local > 0 {
            self.local -= 1;
            Answer::Plain
        } else {
            self.last.take()?
        };
        Some((u32::from(self.thread), answer))
    }
}

// What the turn is told that a step ends; none where it ends no turn.
fn step_answer(how: u8) -> Option<Answer>
    ensures { option_to_list result ≡ step_answers how }
{
    match how {
        PLAIN_STEP | END => Some(Answer::Plain),
        MALLOC_GOT | THREAD_MADE => Some(Answer::Got),
        MALLOC_NULL | THREAD_REFUSED => Some(Answer::None),
        _ => None,
    }
}

// What an allocation was told that was served after a barrier.
fn served_answer(how: u8) -> Answer
    ensures { result ≡ served_answer how }
{
    if how == MALLOC_GOT {
        Answer::Got
    } else {
        Answer::None
    }
}
