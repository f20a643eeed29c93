//! A gate that holds a worker until the other one has come, and then has worked.

use ak_crew::{Gate, Point};
use crossbeam_utils::Backoff;
use std::sync::atomic::{AtomicU64, Ordering};

// How often a worker that is held looks, before it goes on all the same.
const MOST_LOOKS: u32 = 1_000_000;

// How many acts a worker makes before it waits for the other's first.
const ACTS_ALONE: u64 = 50;

// What a worker did so far: how often it came to the gate, whether its last call was an act, and how many acts it has made.
#[derive(Drop)]
struct Seat {
    came: AtomicU64,
    acting: AtomicU64,
    acts: AtomicU64,
}

impl Seat {
    fn new() -> Seat {
        Seat {
            came: AtomicU64::new(0),
            acting: AtomicU64::new(0),
            acts: AtomicU64::new(0),
        }
    }

    // An act that was before the last pause is made.
    fn count_act(&self) -> u64 {
        if self.acting.swap(0, Ordering::SeqCst) == 1 {
            self.acts.fetch_add(1, Ordering::SeqCst);
        }
        self.acts.load(Ordering::SeqCst)
    }
}

/// A gate for two workers. In its first pause each is held until the other has come to its own first pause; and once one has made 50 acts,
/// its next is held until the other has made one.
#[derive(Drop)]
pub struct Meeting {
    first: Seat,
    second: Seat,
    missed: AtomicU64,
}

impl Meeting {
    /// Nobody has come.
    pub fn new() -> Meeting {
        Meeting {
            first: Seat::new(),
            second: Seat::new(),
            missed: AtomicU64::new(0),
        }
    }

    /// How often a worker went on though the other hadn't come or worked.
    pub fn missed(&self) -> u64 {
        self.missed.load(Ordering::SeqCst)
    }

    // Holds the caller until the count is more than 0.
    fn hold(&self, count: &AtomicU64) {
        let backoff = Backoff::new();
        for _ in 0..MOST_LOOKS {
            if count.load(Ordering::SeqCst) > 0 {
                return;
            }
            backoff.snooze();
        }
        self.missed.fetch_add(1, Ordering::SeqCst);
    }
}

impl Gate for Meeting {
    fn pause(&self, worker: u32, point: Point) {
        let (own, other) = if worker == 0 {
            (&self.first, &self.second)
        } else {
            (&self.second, &self.first)
        };
        if own.came.fetch_add(1, Ordering::SeqCst) == 0 {
            self.hold(&other.came);
        }
        let acts = own.count_act();
        if point == Point::Act {
            if acts >= ACTS_ALONE {
                self.hold(&other.acts);
            }
            own.acting.store(1, Ordering::SeqCst);
        }
    }
}
