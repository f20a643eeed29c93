//! Sixteen programs that each break one rule of C, checked: what each prints before, and where and after how many turns its rule is broken.

use crate::calls::{Shown, call};
use ak_crew::NoGate;
use ak_words::NoMemory;
use std::alloc::Global;
use std::fs::Files;
use std::io;
use std::marker::Sync;
use std::sync::Wait;
use std::thread::Threads;

// The words of a call, and what it writes on out and on note.
#[derive(Clone, Copy)]
struct Broken(&'static str, &'static str, &'static str);

// The number with which a check ends that found a broken rule.
const BROKE: u8 = 12;

const PROGRAMS: [Broken; 16] = [
    Broken(
        "alaska c1.c --mode check",
        "",
        "c1.c:6:11: broke C1 after 30 turns\n",
    ),
    Broken(
        "alaska c2.c --mode check",
        "3\n",
        "c2.c:7:14: broke C2 after 13 turns\n",
    ),
    Broken(
        "alaska c3.c --mode check",
        "268435456\n",
        "c3.c:5:23: broke C3 after 2 turns\n",
    ),
    Broken(
        "alaska c4.c --mode check",
        "",
        "c4.c:8:10: broke C4 after 1 turns\n",
    ),
    Broken(
        "alaska c5.c --mode check",
        "",
        "c5.c:7:12: broke C5 after 9 turns\n",
    ),
    Broken(
        "alaska c6.c --mode check",
        "",
        "c6.c:9:18: broke C6 after 17 turns\n",
    ),
    Broken(
        "alaska c7.c --mode check",
        "3\n2\n1\n0\n",
        "c7.c:7:42: broke C7 after 19 turns\n",
    ),
    Broken(
        "alaska c8.c --mode check",
        "1\n",
        "c8.c:7:12: broke C8 after 4 turns\n",
    ),
    Broken(
        "alaska c9.c --mode check",
        "",
        "c9.c:9:12: broke C9 after 3 turns\n",
    ),
    Broken(
        "alaska c10.c --mode check",
        "",
        "c10.c:10:3: broke C10 after 31 turns\n",
    ),
    Broken(
        "alaska c11.c --mode check",
        "",
        "c11.c:8:3: broke C11 after 1 turns\n",
    ),
    Broken(
        "alaska c12.c --mode check",
        "alaska\n",
        "c12.c:6:7: broke C12 after 1 turns\n",
    ),
    Broken(
        "alaska c13.c --mode check",
        "",
        "c13.c:8:3: broke C13 after 4 turns\n",
    ),
    Broken(
        "alaska c14.c --mode check",
        "7\n",
        "c14.c:14:3: broke C14 after 7 turns\n",
    ),
    Broken(
        "alaska c15.c --mode check",
        "1\n",
        "c15.c:12:18: broke C15 after 5 turns\n",
    ),
    Broken(
        "alaska c16.c --mode check",
        "",
        "c16.c:5:10: broke C16 after 3 turns\n",
    ),
];

// Whether a check wrote just this, and found a broken rule.
fn is_told(shown: &Shown, program: &Broken) -> bool {
    shown.ending.status.number() == BROKE
        && shown.out.bytes() == program.1.as_bytes()
        && shown.note.bytes() == program.2.as_bytes()
}

// What a check wrote that isn't what was worked out.
fn show_other<R: Print>(rt: &R, program: &Broken, shown: &Shown) -> io::Result<()> {
    println!(rt; "> {}", program.0)?;
    print!(rt; "{}", str::from_utf8(shown.out.bytes()).unwrap_or("?"))?;
    print!(rt; "{}", str::from_utf8(shown.note.bytes()).unwrap_or("?"))?;
    println!(rt; "status {}", shown.ending.status.number())
}

/// Prints how many of the checks told what was worked out by hand, and what each other one wrote.
pub fn show_broken<R: Threads + Wait + Sync + Files + Print>(
    rt: &R,
    alloc: Global,
) -> io::Result<()> {
    let mut told = 0u32;
    for program in &PROGRAMS {
        match call(rt, alloc, program.0, &NoGate) {
            Ok(shown) if is_told(&shown, program) => told = u32::wrapping_add(told, 1),
            Ok(shown) => show_other(rt, program, &shown)?,
            Err(NoMemory) => println!(rt; "no memory")?,
        }
    }
    println!(rt; "> broken rules: {told} of 16 told as worked out")
}
