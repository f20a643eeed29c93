//! What comes of a text.
ghost use Rattle.std.specs.Prelude.{◌≤◌, length};

use c_grammar::laws::tokens_end_once;
use c_lex::laws::ordered;
use c_lex::{CompileFault, Refusal, lex};
use c_parse::parse;
use c_types::files::check;
use std::alloc::Global;
use std::io;

// The most bytes that a text may have.
const MOST_BYTES: usize = 1_048_576;

/// How far a text goes.
#[derive(Clone, Copy)]
pub enum Stage {
    Grammar,
    Types,
}

// Reads a text so far.
fn judge(alloc: Global, text: &[u8], stage: Stage) -> Result<(), CompileFault>
    requires { length text.now ≤ 1048576 }
{
    ordered();
    tokens_end_once();
    let tokens = lex(alloc, text)?;
    let file = parse(alloc, text, &tokens)?;
    match stage {
        Stage::Grammar => Ok(()),
        Stage::Types => check(alloc, text, &file).map(|_| ()),
    }
}

/// Where a text is refused, and why, if it is.
pub(crate) fn refusal_of(alloc: Global, text: &str, stage: Stage) -> io::Result<Option<Refusal>> {
    if text.len() > MOST_BYTES {
        return Err(io::Error::from(io::ErrorKind::InvalidData));
    }
    match judge(alloc, text.as_bytes(), stage) {
        Ok(()) => Ok(None),
        Err(CompileFault::Refused(refusal)) => Ok(Some(refusal)),
        Err(CompileFault::NoMemory) => Err(io::Error::from(io::ErrorKind::OutOfMemory)),
    }
}
