//! Takes the call `alaska` through worked programs under their words, and prints what each wrote and how it ended; through sixteen checks, each of
//! a program that breaks a rule of C; through programs that leave their objects, a shelf and sinks that fail, and a text that is cut before each of
//! its bytes; builds and loads each row that runs a text; then has two workers on two threads run one program many times, and once where each worker
//! is held until the other has come and worked.
//! Promises nothing upward: it is a program, whose output is held against what was worked out by hand, and is the same whatever the workers do.
//! Stands on alaska_run and ak_crew, over real files, a shelf in memory and sinks in memory.
#![tactic(auto)]

mod broken_rules;
mod calls;
mod crews;
mod cuts;
mod faults;
mod in_memory;
mod loaded;
mod meeting;
mod replays;
mod wild;

use crate::broken_rules::show_broken;
use crate::calls::{Shown, call};
use crate::crews::show_crews;
use crate::cuts::show_cuts;
use crate::faults::show_faults;
use crate::loaded::show_loads;
use crate::replays::{show_replays, show_thinned};
use crate::wild::show_wild;
use ak_crew::NoGate;
use ak_words::NoMemory;
use std::io;

// The words of a call behind the program's own name, and which lines of note are shown, by how they begin: all, or those that no order of
// the workers changes.
#[derive(Clone, Copy)]
struct Row(&'static str, &'static str);

const ROWS: [Row; 107] = [
    Row("alaska nothing.c", "all"),
    Row("alaska answer.c", "all"),
    Row("alaska heap.c", "ended live"),
    Row("alaska empty_objects.c", "ended live"),
    Row(
        "alaska fragments.c --subheap 4096 --subheaps 1",
        "ended barriers moved live extent last",
    ),
    Row("alaska moves.c --every 1", "ended live"),
    Row("alaska unset_pointer.c", "ended"),
    Row("alaska reused_id.c --ids 1 --every 1", "ended barriers"),
    Row("alaska dead_copy.c", "ended"),
    Row("alaska two_arrays.c", "ended"),
    Row("alaska counter.c --workers 2 --every 8", "ended threads"),
    Row(
        "alaska counter.c --workers 2 --every 8 --schedule 1",
        "ended threads",
    ),
    Row(
        "alaska counter.c --workers 2 --every 8 --schedule 7",
        "ended threads",
    ),
    Row("alaska deadlock.c", "ended threads"),
    Row("alaska lock_twice.c", "ended"),
    Row("alaska deep_127.c", "ended"),
    Row("alaska deep_128.c", "all"),
    Row("alaska open_literal.c", "all"),
    Row("alaska floating.c", "all"),
    Row(
        "alaska table.c --workers 3 --every 500",
        "ended threads live",
    ),
    Row("alaska header.c", "ended"),
    Row("alaska spinning.c", "ended"),
    Row("alaska forever.c --entries 1000", "ended entries"),
    Row("alaska empty.c", "all"),
    Row("alaska absent.c", "all"),
    Row("alaska", "all"),
    Row("alaska answer.c --workers 0", "all"),
    Row("alaska answer.c --subheap 5000", "all"),
    Row("alaska --mode churn --seed 1", "all"),
    Row("alaska --mode churn --seed 1 --size 3", "ended live extent"),
    Row("alaska null_store.c", "ended"),
    Row("alaska double_free.c --ids 1", "ended"),
    Row("alaska two_prints.c --output 4", "ended"),
    Row("alaska endless_calls.c", "ended"),
    Row("alaska large_local.c", "ended entries"),
    Row("alaska integers.c", "ended"),
    Row("alaska kinds.c", "ended"),
    Row("alaska kinds.c --mode check", "all"),
    Row("alaska falls.c", "ended"),
    Row("alaska falls.c --mode check", "all"),
    Row("alaska inner_jumps.c", "ended"),
    Row("alaska inner_jumps.c --mode check", "all"),
    Row("alaska nested_switches.c", "ended"),
    Row("alaska nested_switches.c --mode check", "all"),
    Row("alaska wide_labels.c", "ended"),
    Row("alaska wide_labels.c --mode check", "all"),
    Row("alaska states.c", "ended"),
    Row("alaska states.c --mode check", "all"),
    Row("alaska aliases.c --every 1", "ended live"),
    Row("alaska grown.c", "ended live"),
    Row("alaska grown.c --every 1", "ended live"),
    Row("alaska grown.c --mode check", "all"),
    Row(
        "alaska no_room.c --subheap 4096 --subheaps 1",
        "ended barriers live",
    ),
    Row("alaska zeroed.c --ids 1", "ended live"),
    Row("alaska too_large.c", "ended barriers"),
    Row("alaska too_large.c --mode check", "all"),
    Row("alaska dead_realloc.c --ids 1", "ended"),
    Row("alaska dead_realloc.c --mode check", "all"),
    Row(
        "alaska vector.c --workers 4 --every 7 --schedule 3",
        "ended threads live",
    ),
    Row("alaska exchanged.c", "ended"),
    Row("alaska exchanged.c --mode check", "all"),
    Row("alaska added.c --workers 2 --every 8", "ended threads"),
    Row(
        "alaska added.c --workers 2 --every 8 --schedule 1",
        "ended threads",
    ),
    Row(
        "alaska added.c --workers 2 --every 8 --schedule 7",
        "ended threads",
    ),
    Row("alaska wraps.c", "ended"),
    Row("alaska wraps.c --mode check", "all"),
    Row(
        "alaska stack.c --workers 4 --every 7 --schedule 3",
        "ended threads live",
    ),
    Row(
        "alaska tickets.c --workers 4 --every 7 --schedule 3",
        "ended threads",
    ),
    Row("alaska unset_by_label.c --mode check", "all"),
    Row("alaska do_by_zero.c --mode check", "all"),
    Row("alaska hidden_type.c", "all"),
    Row("alaska double_label.c", "all"),
    Row("alaska fragmented.c", "all"),
    Row("alaska fragmented.c --every 100", "all"),
    Row(
        "alaska emptied.c --subheap 4096 --subheaps 2 --evacuate 1",
        "ended barriers moved live extent last evacuated",
    ),
    Row(
        "alaska emptied.c --subheap 4096 --subheaps 2 --evacuate 0",
        "ended barriers moved live extent last evacuated",
    ),
    Row(
        "alaska cache.c --workers 4 --every 50",
        "ended threads live",
    ),
    Row(
        "alaska index.c --workers 2 --every 100",
        "ended threads live",
    ),
    Row(
        "alaska queue.c --workers 4 --every 50 --schedule 3",
        "ended threads live",
    ),
    Row("alaska null_load.c --mode check", "all"),
    Row("alaska answer.c --mode check", "all"),
    Row("alaska lock_twice.c --mode check", "all"),
    Row("alaska waiting.c --mode check", "all"),
    Row("alaska forever.c --mode check --entries 1000", "all"),
    Row("alaska spinning.c --mode check", "all"),
    Row("alaska spinning.c --mode check --schedule 1", "all"),
    Row("alaska deep_128.c --mode check", "all"),
    Row("alaska absent.c --mode check", "all"),
    Row("alaska answer.c --mode check --seed 1", "all"),
    Row("alaska answer.c --mode race", "all"),
    Row("alaska answer.c --mode race --seed 1", "all"),
    Row("alaska deep_128.c --mode race", "all"),
    Row("alaska raced.c --mode race", "ended race"),
    Row("alaska counter.c --mode race", "ended race"),
    Row(
        "alaska counter.c --mode race --workers 2 --every 8",
        "ended race",
    ),
    Row(
        "alaska counter.c --mode race --workers 2 --every 8 --schedule 1",
        "ended race",
    ),
    Row(
        "alaska counter.c --mode race --workers 2 --every 8 --schedule 7",
        "ended race",
    ),
    Row(
        "alaska added.c --mode race --workers 2 --every 8",
        "ended race",
    ),
    Row("alaska flag.c --mode race", "ended race"),
    Row(
        "alaska flag.c --mode race --workers 2 --every 8 --schedule 1",
        "ended race",
    ),
    Row("alaska bare_flag.c --mode race", "ended race"),
    Row("alaska joined.c --mode race", "ended race"),
    Row("alaska freed.c --mode race", "ended race"),
    Row("alaska two_locks.c --mode race", "ended race"),
    Row("alaska copied.c --mode race", "ended race"),
    Row("alaska past_end.c --mode race", "ended race"),
    Row("alaska null_store.c --mode race", "ended race"),
];

// The call that is made twice: what it writes is the same at each.
const TWICE: Row = Row(
    "alaska --mode churn --seed 1 --size 4000 --workers 2 --every 1000",
    "ended threads live",
);

// The call whose journal is replayed whole, and that whose journal is replayed without one of its first entries.
const REPLAYED: &str = "alaska heap.c";

const THINNED: &str = "alaska counter.c --workers 2 --every 8";

// Whether a line begins with one of these words.
fn is_shown(line: &str, words: &str) -> bool {
    words == "all" || words.split(' ').any(|word| line.starts_with(word))
}

// The lines of note that are shown.
fn show_lines<R: Print>(rt: &R, note: &[u8], words: &str) -> io::Result<()> {
    let text = str::from_utf8(note).unwrap_or("?");
    for line in text.lines() {
        if is_shown(line, words) {
            println!(rt; "{line}")?;
        }
    }
    Ok(())
}

fn show<R: Print>(rt: &R, row: &Row, shown: &Shown) -> io::Result<()> {
    println!(rt; "> {}", row.0)?;
    print!(rt; "{}", str::from_utf8(shown.out.bytes()).unwrap_or("?"))?;
    show_lines(rt, shown.note.bytes(), row.1)?;
    println!(rt; "status {}", shown.ending.status.number())
}

// A call, and whether one more of the same words wrote the same.
fn show_twice(rt: &HostRuntime, first: &Shown, second: &Shown) -> io::Result<()> {
    show(rt, &TWICE, first)?;
    let out = first.out.bytes() == second.out.bytes();
    let note = first.note.bytes() == second.note.bytes();
    println!(rt; "again: the same out {out}, the same note {note}")
}

fn main(rt: HostRuntime) -> io::Result<()> {
    for row in &ROWS {
        match call(&rt, rt.alloc(), row.0, &NoGate) {
            Ok(shown) => show(&rt, row, &shown)?,
            Err(NoMemory) => println!(rt; "no memory")?,
        }
    }
    show_broken(&rt, rt.alloc())?;
    match (
        call(&rt, rt.alloc(), TWICE.0, &NoGate),
        call(&rt, rt.alloc(), TWICE.0, &NoGate),
    ) {
        (Ok(first), Ok(second)) => show_twice(&rt, &first, &second)?,
        _ => println!(rt; "no memory")?,
    }
    match call(&rt, rt.alloc(), REPLAYED, &NoGate) {
        Ok(shown) => show_replays(&rt, REPLAYED, &shown.ending)?,
        Err(NoMemory) => println!(rt; "no memory")?,
    }
    match call(&rt, rt.alloc(), THINNED, &NoGate) {
        Ok(shown) => show_thinned(&rt, THINNED, &shown.ending)?,
        Err(NoMemory) => println!(rt; "no memory")?,
    }
    show_wild(&rt, rt.alloc())?;
    show_faults(&rt, rt.alloc())?;
    show_cuts(&rt, rt.alloc())?;
    show_loads(&rt, rt.alloc())?;
    show_crews(&rt, rt.alloc())
}
