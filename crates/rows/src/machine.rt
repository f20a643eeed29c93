//! C texts are run on the machine: one thread after the other, each until it waits, and barriers where no thread is ready; and
//! one text in a world of two passes that take the calls by turns, on one thread.

mod alone;
mod driving;
mod rows;
mod running;
mod telling;
mod turns;

use crate::machine::rows::{Told, run_code, run_code_alone, settings_of};
use crate::machine::running::run_over_world;
use crate::machine::telling::{show, show_barriers, show_world};
use alaska_run::compile;
use run_edges::MOST_BYTES;
use std::alloc::{Alloc, Global};
use std::fs::Files;
use std::sync::Wait;
use std::{fs, io};
use struct_ir::linear::Code;

// The texts, and what their runs are told.
const TEXTS: [(&str, Told); 9] = [
    ("sum.c", Told::Usual),
    ("answer.c", Told::Usual),
    ("null.c", Told::Usual),
    ("twice.c", Told::OneId),
    ("limit.c", Told::FourBytes),
    ("deep.c", Told::Usual),
    ("wide.c", Told::Usual),
    ("threads.c", Told::Usual),
    ("fragments.c", Told::OneSubHeap),
];

// The code of a text.
fn code_of<R: Files + Alloc>(rt: &R, alloc: Global, name: &str) -> io::Result<Code> {
    let text = fs::read_to_string(rt, name)?;
    let bytes = text.as_bytes();
    if bytes.len() > MOST_BYTES {
        return Err(io::Error::from(io::ErrorKind::InvalidData));
    }
    match compile(alloc, bytes) {
        Ok(built) => Ok(built.code),
        Err(_) => Err(io::Error::from(io::ErrorKind::InvalidData)),
    }
}

/// Runs the texts, and prints what comes of each.
pub fn run<R: Wait + Files + Print + Alloc>(rt: &R, alloc: Global) -> io::Result<()> {
    let alone = code_of(rt, alloc, "answer.c")?;
    let told = run_code_alone(alloc, alone, &settings_of(Told::Usual));
    show(rt, "answer.c, its first thread alone", &told)?;
    for (name, told) in &TEXTS {
        let code = code_of(rt, alloc, name)?;
        let run = run_code(alloc, code, &settings_of(*told));
        show(rt, name, &run)?;
        if *told == Told::OneSubHeap {
            show_barriers(rt, &run)?;
        }
    }
    println!(rt; "answer.c, in a world of two passes:")?;
    match run_over_world(rt, alloc, code_of(rt, alloc, "answer.c")?) {
        Ok(Some(finished)) => show_world(rt, finished),
        Ok(None) => println!(rt; "not over"),
        Err(_) => println!(rt; "no memory"),
    }
}
