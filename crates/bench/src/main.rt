//! Measures parts of this project: `bench compile FILE` reads a C text, lowers it and makes it the machine's code; `bench run FILE` runs its thread 0
//! by the interpreter of the source, and `bench races FILE` walks its turns for races as well; `bench check FILE` checks it in a seeded order; `bench table IDS` takes and gives ids; `bench heaps OBJECTS` places
//! and frees objects in sub-heaps; `bench evacuation OBJECTS` moves objects out of thin sub-heaps; `bench arena OBJECTS` places objects and moves them down;
//! `bench slides SIZE` slides objects of a size; `bench filled OBJECTS` takes objects of 1 MiB that are copied, and such that are cleared; `bench turns TURNS` takes turns under the lock. Without
//! words each is done once, over what is small.
//! Promises nothing upward: it is a program. What it prints on standard output is the same at each run of one text or number, and the times go to
//! standard error.
//! Stands on alaska_run's `read`, ir_lower, compile_passes, block_meaning, race_walk and rule_check, on ak_io and run_edges for the file, on handle_table,
//! sub_heaps, move_plan, evacuate and defrag_move, with handle_words for words, and on turn_lock and ak_trace.
#![tactic(auto)]

mod arena;
mod evacuation;
mod filled;
mod heaps;
mod slides;
mod table;
mod texts;
mod turns;

use std::env::Env;
use std::{env, io};

// How many ids, objects or turns there are where no number is given.
const USUAL: u32 = 1000;

// How many objects of 1 MiB there are then.
const FEW: u32 = 10;

// The size of the objects that slide then.
const SLID_SIZE: u32 = 1024;

// Measures each part but the turns over what is small.
fn run_small(rt: &HostRuntime) -> io::Result<()> {
    println!(rt; "# compile")?;
    texts::compile(rt, None)?;
    println!(rt; "# run")?;
    texts::run(rt, None)?;
    println!(rt; "# races")?;
    texts::races(rt, None)?;
    println!(rt; "# check")?;
    texts::check(rt, None)?;
    println!(rt; "# table")?;
    table::run(rt, USUAL)?;
    println!(rt; "# heaps")?;
    heaps::run(rt, USUAL)?;
    println!(rt; "# evacuation")?;
    evacuation::run(rt, USUAL)?;
    println!(rt; "# arena")?;
    arena::run(rt, USUAL)?;
    println!(rt; "# slides")?;
    slides::run(rt, SLID_SIZE, USUAL)?;
    println!(rt; "# filled")?;
    filled::run(rt, FEW)
}

fn main(rt: HostRuntime) -> io::Result<()> {
    let Some(part) = env::args(&rt)?.nth(1) else {
        run_small(&rt)?;
        println!(rt; "# turns")?;
        return turns::run(&rt, rt.alloc(), USUAL);
    };
    let word = env::args(&rt)?.nth(2);
    let word = word.as_deref();
    let number = word
        .and_then(|word| word.parse::<u32>().ok())
        .unwrap_or(USUAL);
    match part.as_str() {
        "compile" => texts::compile(&rt, word),
        "run" => texts::run(&rt, word),
        "races" => texts::races(&rt, word),
        "check" => texts::check(&rt, word),
        "table" => table::run(&rt, number),
        "heaps" => heaps::run(&rt, number),
        "evacuation" => evacuation::run(&rt, number),
        "arena" => arena::run(&rt, number),
        "slides" => slides::run(&rt, number, arena::MOST_OBJECTS),
        "filled" => filled::run(&rt, number),
        "turns" => turns::run(&rt, rt.alloc(), number),
        _ => Err(io::Error::from(io::ErrorKind::InvalidInput)),
    }
}
