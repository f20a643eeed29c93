//! A text that is cut before each of its bytes.

use crate::in_memory::{NONE_FAILS, call_over};
use ak_words::NoMemory;
use std::alloc::Global;
use std::io;
use std::marker::Sync;
use std::sync::Wait;
use std::thread::Threads;

const TEXT: &str =
    "int main(void){int *p=malloc(4);*p=41;*p=*p+1;printf(\"%d\\n\",*p);free(p);return 0;}";

// What the call came to over the bytes of the text before this place.
fn show_cut<R: Threads + Wait + Sync + Print>(
    rt: &R,
    alloc: Global,
    text: &[u8],
    place: usize,
) -> io::Result<()> {
    match call_over(rt, alloc, "alaska a.c", text, &NONE_FAILS) {
        Ok(shown) => print!(rt;
            "{place}: status {}, {} bytes on out, {}",
            shown.ending.status.number(),
            shown.out.bytes().len(),
            str::from_utf8(shown.note.bytes()).unwrap_or("?")
        ),
        Err(NoMemory) => println!(rt; "no memory"),
    }
}

/// Cuts the text before each of its bytes in turn.
pub fn show_cuts<R: Threads + Wait + Sync + Print>(rt: &R, alloc: Global) -> io::Result<()> {
    println!(rt; "> {TEXT}")?;
    println!(rt; "> alaska a.c, with the text cut before each of its bytes")?;
    for (place, _) in TEXT.as_bytes().iter().enumerate() {
        show_cut(rt, alloc, &TEXT.as_bytes()[..place], place)?;
    }
    Ok(())
}
