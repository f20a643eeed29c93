//! How a worker waits that found nothing to do.
use crate::carrying::Carried;
use crossbeam_utils::Backoff;
use std::sync::Wait;
use std::sync::atomic::{AtomicU64, Ordering};
use std::time::Duration;

// How many times it looks again soon, before it sleeps.
const SOON: u32 = 4;

// How long it sleeps, in microseconds: twice as long each time.
const SHORTEST: u64 = 50;

const LONGEST: u64 = 1000;

// What the bell's word is before the run is over, and after.
const SILENT: u64 = 0;

const RUNG: u64 = 1;

/// What the workers of a run sleep on, until one of them finds the run over and rings.
#[derive(Drop)]
pub(crate) struct Bell {
    word: AtomicU64,
}

impl Bell {
    pub(crate) fn new() -> Bell {
        Bell {
            word: AtomicU64::new(SILENT),
        }
    }

    /// Wakes who sleeps, and lets nobody sleep from now on.
    pub(crate) fn ring(&self) {
        self.word.store(RUNG, Ordering::SeqCst);
        self.word.wake_all();
    }
}

/// What a worker waits by that found nothing to do. It holds no ticket while it waits, so that nobody waits for it.
#[derive(Drop)]
pub(crate) struct Idling {
    backoff: Backoff,
    looks: u32,
    pause: u64,
}

impl Idling {
    pub(crate) fn new() -> Self {
        Idling {
            backoff: Backoff::new(),
            looks: 0,
            pause: SHORTEST,
        }
    }

    /// There was something to do.
    pub(crate) fn reset(&mut self) {
        self.backoff.reset();
        self.looks = 0;
        self.pause = SHORTEST;
    }

    /// There was a thread to carry. One that soon is in another's way is little to do: if all wait for one mutex, then a worker alone is the
    /// fastest, and the others sleep.
    pub(crate) fn carried(&mut self, how: Carried) {
        match how {
            Carried::Freely => self.reset(),
            Carried::UntilBusy => self.pause = (self.pause / 2).max(SHORTEST),
            Carried::Nowhere => {}
        }
    }

    /// There was nothing: at first it looks again soon; then it sleeps, the longer the more often it found nothing, unless the bell rings.
    pub(crate) fn wait<R: Wait>(&mut self, rt: &R, bell: &Bell) {
        if self.looks < SOON {
            self.looks += 1;
            self.backoff.snooze();
        } else {
            bell.word
                .park_timeout(rt, SILENT as u32, Duration::from_micros(self.pause));
            self.pause = self.pause.min(LONGEST / 2) * 2;
        }
    }
}
