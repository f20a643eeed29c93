ghost use Rattle.std.specs.Prelude.{◌≡◌};
ghost use Rattle.c_lex.specs.declared.refusal.CompileFault.TheVariants.{NoMemory};

use std::alloc::{AllocError, AllocFailed};
use thiserror::Error;

/// Why a text is refused, one kind for each cause that this project's profile of C11 names.
#[derive(Clone, Copy, Debug, PartialEq, Eq)]
pub enum Kind {
    /// Bytes that begin no token, white space, comment or directive.
    BadByte,
    /// A literal or comment without its end.
    OpenLiteral,
    /// A constant that fits no type.
    NumberTooWide,
    /// The first token up to which, itself included, the tokens begin no file.
    UnexpectedToken,
    /// Nested deeper than 128 levels.
    TooDeep,
    /// A name that isn't declared where it is used.
    UnknownName,
    /// A second declaration of a name in one scope.
    DoubleName,
    /// Types that don't fit their use.
    TypeMismatch,
    /// Something is assigned that is no lvalue.
    NotAnLvalue,
    /// A size that isn't one.
    BadSize,
    /// A feature outside the subset; 0 is a form that isn't built yet.
    OutsideSubset(u8),
    /// More bytes than a text may have.
    TooLong,
    /// More things of one sort than a text may have.
    TooMany(u8),
}

/// One refusal: where, as a byte offset from 0, and why.
#[derive(Clone, Copy, Debug, PartialEq, Eq)]
pub struct Refusal {
    pub place: u32,
    pub kind: Kind,
}

/// Why a phase of the compiler gives nothing.
#[derive(Clone, Copy, Debug, PartialEq, Eq, Error)]
pub enum CompileFault {
    #[error("{kind:?} at byte {place}", kind = .0.kind, place = .0.place)]
    Refused(Refusal),
    /// Want of memory, which no clause ties to a cause.
    #[error("out of memory")]
    NoMemory,
}

impl From<AllocError> for CompileFault {
    ghost from_gives = { λ _ fault. fault ≡ NoMemory };

    fn from(_error: AllocError) -> CompileFault {
        CompileFault::NoMemory
    }
}

impl<T: Drop> From<AllocFailed<T>> for CompileFault {
    ghost from_gives = { λ _ fault. fault ≡ NoMemory };

    fn from(_error: AllocFailed<T>) -> CompileFault {
        CompileFault::NoMemory
    }
}
