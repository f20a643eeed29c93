//! The settings of each text, and what its code comes to on the machine.
ghost use Rattle.std.specs.Prelude.{◌*◌, ◌≤◌, IsTrue};
ghost use Rattle.flat_rules.specs.Ranges.{is_sub_heap_size};

use crate::machine::alone::run_alone;
use crate::machine::turns::run;
use ak_words::NoMemory;
use flat_machine::{End, Mode, Program, Report, Settings, Shared};
use flat_rules::Flat;
use std::alloc::Global;
use struct_ir::linear::Code;

/// What a run is told.
#[derive(Clone, Copy, Debug, PartialEq, Eq)]
pub enum Told {
    /// What it is told where nothing is said.
    Usual,
    /// It has one sub-heap, of 4,096 bytes.
    OneSubHeap,
    /// One object may live.
    OneId,
    /// It may print 4 bytes.
    FourBytes,
}

/// What a run came to: its end, if it came to one; how many times a thread waited for room; the report; and what was printed.
#[derive(Drop)]
pub struct Outcome {
    pub end: Option<End>,
    pub waits: u32,
    pub report: Report,
    pub output: Vec<u8>,
}

fn settings(subheap: u32, subheaps: u32, ids: u32, output: u32) -> Settings
    requires size { IsTrue (is_sub_heap_size subheap) }
    requires sub_heaps { (1 ≤ subheaps) × (subheaps ≤ 256) }
    requires heap { subheaps * subheap ≤ 268435456 }
    requires ids { (1 ≤ ids) × (ids ≤ 1048576) }
    requires output { (1 ≤ output) × (output ≤ 16777216) }
{
    Settings {
        file: None,
        workers: 1,
        schedule: None,
        every: None,
        subheap,
        subheaps,
        ids,
        entries: 1_000_000,
        evacuate: false,
        output,
        mode: Mode::Run,
        seed: None,
        size: None,
    }
}

/// The settings.
pub fn settings_of(told: Told) -> Settings {
    match told {
        Told::Usual => settings(65536, 16, 65536, 1_048_576),
        Told::OneSubHeap => settings(4096, 1, 65536, 1_048_576),
        Told::OneId => settings(65536, 16, 1, 1_048_576),
        Told::FourBytes => settings(65536, 16, 65536, 4),
    }
}

/// Runs code, all threads in turns.
pub fn run_code(alloc: Global, code: Code, settings: &Settings) -> Result<Outcome, NoMemory> {
    let program = Program::load(alloc, code)?;
    let mut shared = Shared::open(alloc, &program, settings)?;
    let (end, waits) = run(alloc, &mut shared, &program)?;
    let report = shared.report(0);
    Ok(Outcome {
        end,
        waits,
        report,
        output: shared.into_output(),
    })
}

/// Runs code, with its first thread alone.
pub fn run_code_alone(alloc: Global, code: Code, settings: &Settings) -> Result<Outcome, NoMemory> {
    let program = Program::load(alloc, code)?;
    let mut shared = Shared::new(alloc, &program, settings)?;
    let end = run_alone(alloc, &mut shared, &program)?;
    let report = shared.report(0);
    Ok(Outcome {
        end,
        waits: 0,
        report,
        output: shared.into_output(),
    })
}
