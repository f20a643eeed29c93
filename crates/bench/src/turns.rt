//! Measures the turn lock: turns a second of a call that leaves an entry, with 1, 2 and 4 passes on threads of their own.
ghost use Rattle.std.specs.Prelude.{◌≡◌, ◌*◌, ◌<◌, ◌≤◌, [], IfOk};
ghost use Rattle.turn_lock.specs.Locks.{IsPassOf, own_of, seen_of, worker_of};

mod calls;

use crate::turns::calls::Calls;
use ak_words::NoMemory;
use std::alloc::Global;
use std::sync::Wait;
use std::thread::Threads;
use std::time::{Clock, Instant};
use std::{io, thread};
use turn_lock::{Pass, TurnLock};

type Lock = TurnLock<Calls, (), bool>;

// The most turns of each pass, so that the entries of four fit.
const MOST_TURNS: u32 = 1_000_000;

// Takes so many turns, while the journal has room.
fn take_turns<R: Wait>(rt: &R, lock: &Lock, pass: Pass<Calls>, turns: u32) -> Pass<Calls>
    requires { IsPassOf lock.now pass }
    ensures { IsPassOf lock.now result × (worker_of result ≡ worker_of pass) }
{
    let mut pass = pass;
    for _ in 0..turns {
        if !lock.turn(rt, &mut pass, ()) {
            break;
        }
    }
    pass
}

// Takes the turns of each pass on a thread of its own.
fn take_all<R: Threads + Wait + Sync>(
    rt: &R,
    alloc: Global,
    passes: u32,
    turns: u32,
) -> Result<Calls, NoMemory>
    requires { (0 < passes) × (passes ≤ 64) × (turns ≤ MOST_TURNS) }
    ensures { IfOk result (λ x. x.journal.limit ≡ passes * turns) }
{
    let calls = Calls::with_limit(alloc, passes * turns)?;
    let (lock, all) = Lock::new(alloc, calls, passes)?;
    let shared = &lock;
    let done = thread::map_vec(
        rt,
        all,
        &|pass: Pass<Calls>| -> Pass<Calls>
            requires { IsPassOf shared.now pass }
            ensures { IsPassOf shared.entry.now result × (worker_of result ≡ worker_of pass) }
        { take_turns(rt, shared, pass, turns) },
    )?;
    Ok(lock.close(done))
}

// So many turns in so many microseconds, as turns a second.
fn rate(turns: u32, micros: u128) -> u64 {
    let micros = u64::try_from(micros).unwrap_or(u64::MAX);
    let each_second = (u64::from(turns) * 1_000_000).checked_div(micros);
    each_second.unwrap_or(0)
}

/// Has 1, 2 and 4 passes take so many turns each.
pub fn run<R: Threads + Wait + Sync + Clock + Print + Eprint>(
    rt: &R,
    alloc: Global,
    turns: u32,
) -> io::Result<()> {
    let turns = turns.min(MOST_TURNS);
    for passes in [1, 2, 4u32] {
        let start = Instant::now(rt)?;
        let calls = take_all(rt, alloc, passes, turns).map_err(|_| io::Error::from(
            io::ErrorKind::OutOfMemory,
        ))?;
        let micros = start.elapsed(rt)?.as_micros();
        let entries = calls.journal.len();
        println!(rt; "passes: {passes}, turns of each: {turns}, entries: {entries}")?;
        let rate = rate(entries, micros);
        eprintln!(rt; "passes: {passes}, turns a second: {rate}")?;
    }
    Ok(())
}
