//! The journals of calls, replayed whole and with an entry taken out.

use ak_trace::Journal;
use ak_words::NoMemory;
use alaska_run::Ending;
use flat_replay::{Final, replay_run};
use std::alloc::Global;
use std::io;

// How many of a journal's first entries are taken out, each alone.
const TAKEN: u32 = 200;

// A journal's entries but the one at this place.
fn without(alloc: Global, journal: &Journal, place: u32) -> Result<Journal, NoMemory> {
    let mut rest = Journal::with_limit(alloc, journal.len())?;
    for i in 0..journal.len() {
        match journal.get(i) {
            Some(e) if i != place && rest.spare() > 0 => rest.push(e),
            _ => {}
        }
    }
    Ok(rest)
}

// What the ending's journal comes to without the entry at this place; all of it where there is none.
fn replayed(alloc: Global, ending: &Ending, place: u32) -> Result<Option<Final>, NoMemory> {
    let (Some(code), Some(settings), Some(kept)) = (&ending.code, &ending.settings, &ending.journal)
    else {
        return Ok(None);
    };
    replay_run(
        alloc,
        code,
        settings,
        &without(alloc, kept.journal(), place)?,
    )
}

// How many entries the ending's journal has.
fn entries_of(ending: &Ending) -> u32 {
    match &ending.journal {
        Some(kept) => kept.journal().len(),
        None => 0,
    }
}

// Replays the journal without each of its first entries, one at a time; how many of these replays come to nothing.
fn count_refused(alloc: Global, ending: &Ending) -> Result<u32, NoMemory> {
    let mut refused = 0;
    for place in 0..TAKEN.min(entries_of(ending)) {
        if replayed(alloc, ending, place)?.is_none() {
            refused = u32::wrapping_add(refused, 1);
        }
    }
    Ok(refused)
}

fn show_replay(rt: &HostRuntime, told: &Result<Option<Final>, NoMemory>) -> io::Result<()> {
    match told {
        Ok(Some(done)) => {
            print!(rt; "{}", str::from_utf8(&done.output).unwrap_or("?"))?;
            match done.end {
                Some(end) => println!(rt; "{end:?}"),
                None => println!(rt; "no end"),
            }
        }
        Ok(None) => println!(rt; "none"),
        Err(NoMemory) => println!(rt; "no memory"),
    }
}

/// The journal of a run, then without its last entry, and without its first.
pub fn show_replays(rt: &HostRuntime, call: &str, ending: &Ending) -> io::Result<()> {
    let entries = entries_of(ending);
    println!(rt; "> the journal of {call}")?;
    show_replay(rt, &replayed(rt.alloc(), ending, entries))?;
    println!(rt; "> without its last entry")?;
    show_replay(rt, &replayed(rt.alloc(), ending, entries.saturating_sub(1)))?;
    println!(rt; "> without its first entry")?;
    show_replay(rt, &replayed(rt.alloc(), ending, 0))
}

/// The journal of a run without each of its first entries, one at a time: how many of these come to nothing, and what comes of it without the
/// first. Where each thread of the run ended, all come to nothing. Without a step that was done, its thread isn't at its end where the journal
/// says so; without one that rested or waited, the thread goes home for no cause; without its going out or home, it works at home or goes out
/// twice; and without a barrier, the next thread goes out while one is wanted.
pub fn show_thinned(rt: &HostRuntime, call: &str, ending: &Ending) -> io::Result<()> {
    println!(rt; "> the journal of {call} without one of its first {TAKEN} entries")?;
    match count_refused(rt.alloc(), ending) {
        Ok(refused) => println!(rt; "{refused} come to nothing")?,
        Err(NoMemory) => println!(rt; "no memory")?,
    }
    println!(rt; "> without its first entry")?;
    show_replay(rt, &replayed(rt.alloc(), ending, 0))
}
