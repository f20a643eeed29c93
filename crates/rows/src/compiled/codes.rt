//! The code of C texts: of some its outline, each loop, Look, safepoint, call and allocation in order, and of others both listings whole.
ghost use Rattle.std.specs.Prelude.{◌≤◌, length};

use crate::compiled::code_listing::text;
use crate::compiled::linear_listing::code_text;
use ak_words::NoMemory;
use alaska_run::read;
use c_lex::CompileFault;
use compile_passes::{Compiled, compile, prepare};
use ir_lower::lower;
use run_edges::MOST_BYTES;
use std::alloc::Global;
use std::{fs, io};

// The texts of which an outline is printed: their first lines tell what it shows.
const OUTLINED: [&str; 3] = ["look_before_loop.c", "unset_word.c", "dead_word.c"];

// The words of the lines that belong to an outline.
const WORDS: [&str; 5] = ["loop", "look", "safepoint", "call", "malloc"];

// The texts of both listings.
const LISTED: [&str; 3] = ["churn.c", "around_calls.c", "control.c"];

// Memory ran out.
fn no_memory(_: NoMemory) -> CompileFault {
    CompileFault::NoMemory
}

// The listing of the code that a text is prepared to.
fn prepared(alloc: Global, bytes: &[u8]) -> Result<Vec<u8>, CompileFault>
    requires { length bytes.now ≤ 1048576 }
{
    let reading = read(alloc, bytes)?;
    let ir = lower(alloc, &reading.typed).map_err(no_memory)?;
    let ready = prepare(alloc, ir).map_err(no_memory)?;
    text(alloc, &ready).map_err(no_memory)
}

// The listing of its linear code.
fn emitted(alloc: Global, bytes: &[u8]) -> Result<Vec<u8>, CompileFault>
    requires { length bytes.now ≤ 1048576 }
{
    let reading = read(alloc, bytes)?;
    let ir = lower(alloc, &reading.typed).map_err(no_memory)?;
    let Compiled { code, .. } = compile(alloc, ir).map_err(no_memory)?;
    code_text(alloc, &code).map_err(no_memory)
}

// Prints the lines of a listing, or of its outline alone.
fn print_listing(
    rt: &HostRuntime,
    listing: &Result<Vec<u8>, CompileFault>,
    is_whole: bool,
) -> io::Result<()> {
    let Ok(listing) = listing else {
        return println!(rt; "none");
    };
    for line in str::from_utf8(listing).unwrap_or("").lines() {
        if is_whole || WORDS.iter().any(|word| line.contains(*word)) {
            println!(rt; "{line}")?;
        }
    }
    Ok(())
}

// Prints what is to be shown of the code of a file.
fn show(rt: &HostRuntime, name: &str, is_whole: bool) -> io::Result<()> {
    let alloc = rt.alloc();
    let text = fs::read_to_string(rt, name)?;
    let bytes = text.as_bytes();
    if bytes.len() > MOST_BYTES {
        return Err(io::Error::from(io::ErrorKind::InvalidData));
    }
    println!(rt; "{name}")?;
    print_listing(rt, &prepared(alloc, bytes), is_whole)?;
    if is_whole {
        print_listing(rt, &emitted(alloc, bytes), true)?;
    }
    Ok(())
}

/// Prints the outlines and the listings.
pub fn show_codes(rt: &HostRuntime) -> io::Result<()> {
    for name in OUTLINED {
        show(rt, name, false)?;
    }
    for name in LISTED {
        show(rt, name, true)?;
    }
    Ok(())
}
