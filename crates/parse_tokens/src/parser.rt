//! The parser's state, and why it stops.

ghost use Rattle.std.specs.Prelude.{◌≡◌};
ghost use Rattle.parse_tokens.specs.declared.parser.Stop.TheVariants.{NoMemory};

use c_grammar::terminal::Terminal;
use c_lex::Kind;
use std::alloc::{AllocError, AllocFailed, Global};

/// Why a production isn't read.
#[derive(Clone, Copy)]
pub enum Stop {
    /// A token that may not stand here: so many tokens are left, it among them.
    Unexpected(usize),
    /// A token that may not stand here, nor any other that isn't too deep: so many tokens are left, it among them.
    Sunk(usize),
    /// A token that is over a limit, and which: so many tokens are left, it among them.
    Over(Kind, usize),
    /// Want of memory.
    NoMemory,
}

impl From<AllocError> for Stop {
    ghost from_gives = { λ _ stop. stop ≡ NoMemory };

    fn from(_error: AllocError) -> Stop {
        Stop::NoMemory
    }
}

impl<T: Drop> From<AllocFailed<T>> for Stop {
    ghost from_gives = { λ _ stop. stop ≡ NoMemory };

    fn from(_error: AllocFailed<T>) -> Stop {
        Stop::NoMemory
    }
}

/// The tokens that aren't read yet, and the operators of the full expression before them.
#[derive(Drop)]
pub struct Parser<'a> {
    pub rest: &'a [Terminal],
    pub count: u32,
    pub alloc: Global,
}
