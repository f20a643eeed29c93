//! A C text is checked: its source is run in a seeded order, as far as its first broken rule or its end.
ghost use Rattle.std.specs.Prelude.{◌≤◌, length};

use ak_words::NoMemory;
use alaska_run::{Reading, read};
use c_lex::CompileFault;
use rule_check::{RuleReport, Verdict, rule_check};
use std::alloc::Global;
use std::io;
use std::time::Instant;

// The seed, and how many turns there are at most.
const SEED: u64 = 0;

const MOST: u32 = 16000000;

// What a check of this text reports.
fn report_of(alloc: Global, text: &[u8]) -> Result<RuleReport, CompileFault>
    requires { length text.now ≤ 1048576 }
{
    let Reading { tokens: _, typed } = read(alloc, text)?;
    match rule_check(alloc, typed, SEED, MOST) {
        Ok(report) => Ok(report),
        Err(NoMemory) => Err(CompileFault::NoMemory),
    }
}

// How a check ended, in a word.
fn word_of(verdict: Verdict) -> &'static str {
    match verdict {
        Verdict::Broke { .. } => "broke a rule",
        Verdict::Ended { .. } => "main ended",
        Verdict::AllBlocked { .. } => "all wait",
        Verdict::TurnsSpent { .. } => "turns spent",
    }
}

/// Checks a text, and prints how that ended; and its turns and how many microseconds it took, with the reading, on standard error.
pub fn show_check(rt: &HostRuntime, text: &[u8]) -> io::Result<()>
    requires { length text.now ≤ 1048576 }
{
    let start = Instant::now(rt)?;
    let Ok(report) = report_of(rt.alloc(), text) else {
        return Err(io::Error::from(io::ErrorKind::InvalidData));
    };
    let micros = start.elapsed(rt)?.as_micros();
    println!(rt;
        "{}, with {} bytes of output",
        word_of(report.verdict),
        report.output.len()
    )?;
    eprintln!(rt; "{} {micros}", report.order.len())
}
