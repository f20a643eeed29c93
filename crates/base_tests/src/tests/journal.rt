//! A journal up to its limit, and the turns that it tells.
ghost use Rattle.std.specs.Prelude.{◌≡◌, IfOk};
ghost use Rattle.ak_trace.specs.Order.{order};

use ak_trace::{Answer, Entry, Journal, how, kind};
use std::alloc::{AllocError, Global};
use std::test::Fail;

/// All turns that a journal tells, in a list.
fn turns_of(alloc: Global, journal: &Journal) -> Result<Vec<(u32, Answer)>, AllocError>
    ensures { IfOk result (λ turns. turns.items ≡ order journal.now.entries) }
{
    journal.walk().collect(alloc)
}

fn out() -> Entry {
    Entry {
        kind: kind::OUT,
        ..turn(0, 0, 0)
    }
}

fn turn(worker: u8, how: u8, local: u16) -> Entry {
    Entry {
        kind: kind::TURN,
        worker,
        thread: 0,
        how,
        local,
        zero: 0,
        id: 0,
        place: 0,
    }
}

#[test]
fn keeps_entries_up_to_its_limit(rt: HostRuntime) -> Result<(), Fail> {
    let mut journal = Journal::with_limit(rt.alloc(), 2)?;
    assert_eq!(rt; (journal.len(), journal.spare()), (0, 2));
    assert_eq!(rt; journal.get(0), None);
    for (worker, how, local) in [(0, how::LOOK, 2), (1, how::END, 1024)] {
        assert!(rt; journal.spare() >= 1);
        journal.push(turn(worker, how, local));
    }
    assert_eq!(rt; (journal.len(), journal.spare()), (2, 0));
    assert_eq!(rt; journal.get(1), Some(turn(1, how::END, 1024)));
    assert_eq!(rt; journal.get(2), None);
    Ok(())
}

#[test]
fn walks_over_local_turns(rt: HostRuntime) -> Result<(), Fail> {
    let mut journal = Journal::with_limit(rt.alloc(), 4)?;
    for entry in [
        out(),
        turn(0, how::LOOK, 2),
        turn(0, how::PLAIN_STEP, 0),
        turn(0, how::REST, 3),
    ] {
        assert!(rt; journal.spare() >= 1);
        journal.push(entry);
    }
    let turns = turns_of(rt.alloc(), &journal)?;
    assert_eq!(rt; turns.as_slice(), [(0, Answer::Plain); 6].as_slice());
    Ok(())
}
