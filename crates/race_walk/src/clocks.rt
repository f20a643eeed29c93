ghost use Rattle.std.specs.Prelude.{◌≡◌, ℕ, ◌+◌, ◌<◌, ◌^◌, max, OnOk};
ghost use Rattle.race_rules.specs.Clocks.{clock_of, gained, told, told_all, in_thread};
ghost use Rattle.race_walk.specs.Views.{told_by, this_turn};

use crate::clock::{join, know};
use crate::rows::{join_row, release, replace, row, write};
use race_rules::{Touch, TouchKind};
use std::alloc::{AllocError, Global};
use std::collections::HashMap;

/// What is known by each thread, and from what was done to mutexes and atomic cells.
#[derive(Drop)]
pub struct Clocks {
    /// By the last turn of each thread.
    pub threads: HashMap<u32, Vec<u64>>,
    /// By the turns that made each thread.
    pub started: HashMap<u32, Vec<u64>>,
    /// By the turns that gave back each mutex: its block, and its first cell and the one behind its last.
    pub released: HashMap<(u64, (u32, u32)), Vec<u64>>,
    /// By the turns that wrote each cell atomically: its block and its number.
    pub written: HashMap<(u64, u32), Vec<u64>>,
}

impl Clocks {
    ghost use Rattle.race_walk.specs.States.{clocks_of, Same};

    /// Lets the clock know what a touch lets its turn know.
    pub fn gain(&self, clock: &mut Vec<u64>, touch: Touch) -> Result<(), AllocError>
        ensures { OnOk result ((t : ℕ) → told_by clock.new.items t ≡ max (told_by clock.old.items t) (gained (clocks_of self.now) touch t)) }
    {
        match touch.kind {
            TouchKind::AtomicRead => {
                for cell in touch.from..touch.to {
                    join(clock, row(&self.written, &(touch.block, cell)))?;
                }
                Ok(())
            }
            TouchKind::Lock => join(
                clock,
                row(&self.released, &(touch.block, (touch.from, touch.to))),
            ),
            TouchKind::Join(thread) => join(clock, row(&self.threads, &thread)),
            TouchKind::Read | TouchKind::Write | TouchKind::AtomicWrite => Ok(()),
            TouchKind::Unlock | TouchKind::Start(_) => Ok(()),
        }
    }

    /// Tells what the clock knows where a touch tells it.
    pub fn tell(&mut self, alloc: Global, clock: &[u64], touch: Touch) -> Result<(), AllocError>
        ensures { OnOk result (Same (clocks_of self.new) (told (told_by clock.now) touch (clocks_of self.old))) }
    {
        match touch.kind {
            TouchKind::AtomicWrite => write(alloc, &mut self.written, touch, clock)?,
            TouchKind::Unlock => release(alloc, &mut self.released, touch, clock)?,
            TouchKind::Start(thread) => join_row(alloc, &mut self.started, thread, clock)?,
            TouchKind::Read | TouchKind::Write | TouchKind::AtomicRead => {}
            TouchKind::Lock | TouchKind::Join(_) => {}
        }
        Ok(())
    }

    /// Makes the clock what a turn knows at its end.
    pub fn set_clock(
        &self,
        clock: &mut Vec<u64>,
        turn: u64,
        thread: u32,
        touches: &[Touch],
    ) -> Result<(), AllocError>
        requires { turn + 1 < 2 ^ 64 }
        ensures { OnOk result ((t : ℕ) → told_by clock.new.items t ≡ clock_of (clocks_of self.now) turn (this_turn thread touches.now) t) }
    {
        clock.clear();
        join(clock, row(&self.threads, &thread))?;
        join(clock, row(&self.started, &thread))?;
        for touch in touches {
            self.gain(clock, *touch)?;
        }
        know(clock, thread, turn)?;
        Ok(())
    }

    /// Tells what a turn's clock knows wherever its touches tell it.
    pub fn tell_all(
        &mut self,
        alloc: Global,
        clock: &[u64],
        touches: &[Touch],
    ) -> Result<(), AllocError>
        ensures { OnOk result (Same (clocks_of self.new) (told_all (told_by clock.now) touches.now (clocks_of self.old))) }
    {
        for touch in touches {
            self.tell(alloc, clock, *touch)?;
        }
        Ok(())
    }

    /// Lets a turn's clock be told, and be its thread's; the place of the clock is free again then.
    pub fn finish(
        &mut self,
        alloc: Global,
        thread: u32,
        clock: &mut Vec<u64>,
        touches: &[Touch],
    ) -> Result<(), AllocError>
        ensures { OnOk result (Same (clocks_of self.new) (in_thread thread (told_by clock.old.items) (told_all (told_by clock.old.items) touches.now (clocks_of self.old)))) }
    {
        self.tell_all(alloc, clock.as_slice(), touches)?;
        replace(alloc, &mut self.threads, thread, clock)?;
        Ok(())
    }
}
