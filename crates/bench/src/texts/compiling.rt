//! A C text is read, lowered, and made the machine's code.
ghost use Rattle.std.specs.Prelude.{◌≤◌, length};

use crate::texts::no_memory;
use ak_words::NoMemory;
use alaska_run::{Reading, read};
use c_lex::{CompileFault, Refusal};
use compile_passes::{Compiled, compile};
use ir_lower::lower;
use std::io;
use std::time::Instant;
use struct_ir::linear::Code;

// How long each part took, in microseconds.
#[derive(Clone, Copy)]
struct Times {
    read: u128,
    lowered: u128,
    compiled: u128,
}

// What came of a text.
#[derive(Drop)]
enum Outcome {
    Refused(Refusal),
    Built(Reading, Code, Times),
}

// Reads a text, lowers its tree, and compiles the code.
fn measure(rt: &HostRuntime, text: &[u8]) -> io::Result<Outcome>
    requires { length text.now ≤ 1048576 }
{
    let alloc = rt.alloc();
    let start = Instant::now(rt)?;
    let reading = match read(alloc, text) {
        Ok(reading) => reading,
        Err(CompileFault::Refused(refusal)) => return Ok(Outcome::Refused(refusal)),
        Err(CompileFault::NoMemory) => return Err(no_memory(NoMemory)),
    };
    let read = start.elapsed(rt)?.as_micros();
    let start = Instant::now(rt)?;
    let ir = lower(alloc, &reading.typed).map_err(no_memory)?;
    let lowered = start.elapsed(rt)?.as_micros();
    let start = Instant::now(rt)?;
    let Compiled { code, .. } = compile(alloc, ir).map_err(no_memory)?;
    let compiled = start.elapsed(rt)?.as_micros();
    let times = Times {
        read,
        lowered,
        compiled,
    };
    Ok(Outcome::Built(reading, code, times))
}

// What was made, and how long it took.
fn report(rt: &HostRuntime, bytes: usize, outcome: &Outcome) -> io::Result<()> {
    match outcome {
        Outcome::Refused(refusal) => println!(rt; "refused at {}", refusal.place),
        Outcome::Built(reading, code, times) => {
            println!(rt; "{bytes} bytes, {} tokens", reading.tokens.len())?;
            println!(rt;
                "{} functions, {} of them compiled",
                reading.typed.funcs.len(),
                code.funcs.len()
            )?;
            eprintln!(rt;
                "{bytes} {} {} {}",
                times.read, times.lowered, times.compiled
            )
        }
    }
}

/// Compiles a text, and prints what was made; and its bytes and how many microseconds each part took, on standard error.
pub fn show_compiled(rt: &HostRuntime, text: &[u8]) -> io::Result<()>
    requires { length text.now ≤ 1048576 }
{
    let outcome = measure(rt, text)?;
    report(rt, text.len(), &outcome)
}
