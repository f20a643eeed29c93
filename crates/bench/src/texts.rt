//! Measures what is done with a C text: it is read, lowered and made the machine's code, or its thread 0 is run by the interpreter of the source, and
//! its turns are walked for races, or it is checked.

mod checking;
mod compiling;
mod running;
mod walking;

use crate::texts::checking::show_check;
use crate::texts::compiling::show_compiled;
use crate::texts::running::show_run;
use crate::texts::walking::show_walk;
use ak_io::FileShelf;
use ak_words::NoMemory;
use run_edges::{MOST_BYTES, TextRead, read_text};
use std::io;

// The text that is compiled where no file is named.
const LOOP: &[u8] =
    b"int main(void) { int s = 0; for (int i = 0; i < 4; i++) s += i; return s; }\n";

// The text that is run there: a loop with a load and a store in each round.
const ROUNDS: &[u8] =
    b"int main(void){int *p=malloc(4);*p=0;for(int i=0;i<1000;i++)*p=*p+1;printf(\"%d\\n\",*p);free(p);return 0;}\n";

/// The memory ran out.
pub(crate) fn no_memory(_: NoMemory) -> io::Error {
    io::Error::from(io::ErrorKind::OutOfMemory)
}

// The bytes of a file.
fn load(rt: &HostRuntime, name: &str) -> io::Result<Vec<u8>> {
    match read_text(rt.alloc(), &mut FileShelf::new(rt), name, MOST_BYTES).map_err(no_memory)? {
        TextRead::Whole(text) => Ok(text),
        _ => Err(io::Error::from(io::ErrorKind::InvalidData)),
    }
}

/// Compiles the text of a file, or a small one where none is named.
pub fn compile(rt: &HostRuntime, name: Option<&str>) -> io::Result<()> {
    let Some(name) = name else {
        return show_compiled(rt, LOOP);
    };
    let text = load(rt, name)?;
    let text = &text[..text.len().min(MOST_BYTES)];
    show_compiled(rt, text)
}

/// Runs thread 0 of the text of a file, or of a small one where none is named.
pub fn run(rt: &HostRuntime, name: Option<&str>) -> io::Result<()> {
    let Some(name) = name else {
        return show_run(rt, ROUNDS);
    };
    let text = load(rt, name)?;
    let text = &text[..text.len().min(MOST_BYTES)];
    show_run(rt, text)
}

/// Checks the text of a file, or a small one where none is named.
pub fn check(rt: &HostRuntime, name: Option<&str>) -> io::Result<()> {
    let Some(name) = name else {
        return show_check(rt, ROUNDS);
    };
    let text = load(rt, name)?;
    let text = &text[..text.len().min(MOST_BYTES)];
    show_check(rt, text)
}

/// Runs thread 0 of the text of a file, or of a small one where none is named, and walks its turns for races.
pub fn races(rt: &HostRuntime, name: Option<&str>) -> io::Result<()> {
    let Some(name) = name else {
        return show_walk(rt, ROUNDS);
    };
    let text = load(rt, name)?;
    let text = &text[..text.len().min(MOST_BYTES)];
    show_walk(rt, text)
}
