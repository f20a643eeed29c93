//! Random small codes: the checker and a plain walk along all paths up to a length are to name the same first fault. It is told of each seed
//! whether they agree.

mod codes;
mod walks;

use crate::walking::codes::Maker;
use crate::walking::walks::walked;
use ak_words::NoMemory;
use pin_checker::{CheckFault, Why, check};
use std::alloc::Global;
use std::io;
use struct_ir::{Ir, IrFunc, Node};

// How many codes are tried of each seed.
const CODES: u32 = 2500;

// Of the codes of a seed, how many are safe, and at how many the checker and the walk differ.
#[derive(Clone, Copy, Default)]
struct Tally {
    safe: u32,
    differing: u32,
}

// A program of one function without parameters, with three registers and two slots.
fn program(alloc: Global, nodes: Vec<Node>) -> Result<Ir, NoMemory> {
    let mut funcs = Vec::new(alloc);
    funcs.push(IrFunc {
        params: 0,
        temps: 3,
        slots: 2,
        objects: Vec::new(alloc),
        nodes,
    })?;
    Ok(Ir {
        globals: Vec::new(alloc),
        literals: Vec::new(alloc),
        funcs,
        main: 0,
    })
}

// The first fault of the nodes, as the checker tells it.
fn checked(alloc: Global, nodes: Vec<Node>) -> Result<Option<(u32, Why)>, NoMemory> {
    match check(alloc, program(alloc, nodes)?) {
        Ok(_) => Ok(None),
        Err(CheckFault::Refused { place, why }) => Ok(Some((place, why))),
        Err(CheckFault::NoMemory) => Err(NoMemory),
    }
}

fn tallied(alloc: Global, seed: u64) -> Result<Tally, NoMemory> {
    let mut maker = Maker::new(seed);
    let mut tally = Tally::default();
    for _ in 0..CODES {
        let mut nodes = Vec::new(alloc);
        maker.code(alloc, &mut nodes)?;
        let expected = walked(&nodes);
        if checked(alloc, nodes)? != expected {
            tally.differing = tally.differing.saturating_add(1);
        }
        if expected.is_none() {
            tally.safe = tally.safe.saturating_add(1);
        }
    }
    Ok(tally)
}

fn no_memory(_: NoMemory) -> io::Error {
    io::Error::from(io::ErrorKind::OutOfMemory)
}

/// Prints of each seed whether the checker and the walk agree.
pub fn run(rt: &HostRuntime) -> io::Result<()> {
    for seed in 20260101..20260105 {
        let tally = tallied(rt.alloc(), seed).map_err(no_memory)?;
        println!(rt;
            "seed {seed}: they differ at {} of {CODES} codes; {}",
            tally.differing,
            if tally.safe > 25 && tally.safe < 2475 {
                "some are safe and some are refused"
            } else {
                "too few are safe or too few are refused"
            }
        )?;
    }
    Ok(())
}
