//! Passes on threads of their own call one tally.
ghost use Rattle.std.specs.Prelude.{◌≡◌, ◌*◌, ◌<◌, ◌≤◌, [], IfOk};
ghost use Rattle.turn_lock.specs.Locks.{IsPassOf, own_of, seen_of, worker_of};

mod tally;

use ak_words::NoMemory;
use std::alloc::Global;
use std::sync::Wait;
use std::test::Fail;
use std::thread;
use std::thread::Threads;
use tally::Tally;
use turn_lock::{Pass, TurnLock};

type Lock = TurnLock<Tally, u32, Option<u64>>;

// Makes so many calls, numbered from 0, while the journal has room.
fn make_calls<R: Wait>(rt: &R, lock: &Lock, pass: Pass<Tally>, calls: u32) -> Pass<Tally>
    requires { IsPassOf lock.now pass × (seen_of pass ≡ []) × (own_of pass ≡ []) }
    ensures { IsPassOf lock.now result × (worker_of result ≡ worker_of pass) }
{
    let mut pass = pass;
    for number in 0..calls {
        if lock.turn(rt, &mut pass, number).is_none() {
            break;
        }
    }
    pass
}

// Each pass makes so many calls, on a thread of its own.
fn by_many<R: Threads + Wait + Sync>(
    rt: &R,
    alloc: Global,
    passes: u32,
    calls: u32,
) -> Result<Tally, NoMemory>
    requires { (0 < passes) × (passes ≤ 64) × (calls ≤ 1000) }
    ensures { IfOk result (λ x. x.journal.limit ≡ passes * calls) }
{
    let tally = Tally::with_limit(alloc, passes * calls)?;
    let (lock, all) = Lock::new(alloc, tally, passes)?;
    let shared = &lock;
    let done = thread::map_vec(
        rt,
        all,
        &|pass: Pass<Tally>| -> Pass<Tally>
            requires { IsPassOf shared.now pass × (seen_of pass ≡ []) × (own_of pass ≡ []) }
            ensures { IsPassOf shared.entry.now result × (worker_of result ≡ worker_of pass) }
        { make_calls(rt, shared, pass, calls) },
    )?;
    Ok(lock.close(done))
}

// How many calls of a worker the journal has, if they stand in the order of their numbers, from 0 on.
fn calls_in_order(tally: &Tally, worker: u8) -> Option<u32> {
    let mut next: u32 = 0;
    for i in 0..tally.journal.len() {
        if let Some(entry) = tally.journal.get(i)
            && entry.worker == worker
        {
            if entry.id != next {
                return None;
            }
            next = next.saturating_add(1);
        }
    }
    Some(next)
}

// Whether a thousand calls of each of so many workers stand in the journal, in order.
fn has_a_thousand_each(tally: &Tally, workers: u8) -> bool {
    (0..workers).all(|worker| calls_in_order(tally, worker) == Some(1000))
}

#[test]
fn two_passes_count_two_thousand(rt: HostRuntime) -> Result<(), Fail> {
    let tally = by_many(&rt, rt.alloc(), 2, 1000)?;
    let counted = (tally.count, tally.journal.len());
    assert_eq!(rt;
        (counted, has_a_thousand_each(&tally, 2)),
        ((2000, 2000), true)
    );
    Ok(())
}

#[test]
fn eight_passes_count_eight_thousand(rt: HostRuntime) -> Result<(), Fail> {
    let tally = by_many(&rt, rt.alloc(), 8, 1000)?;
    let counted = (tally.count, tally.journal.len());
    assert_eq!(rt;
        (counted, has_a_thousand_each(&tally, 8)),
        ((8000, 8000), true)
    );
    Ok(())
}
