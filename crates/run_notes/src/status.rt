ghost use Rattle.std.specs.Prelude.{◌≡◌};
ghost use Rattle.run_notes.specs.Statuses.{number_of_check};

use ak_trace::{TrapKind, Verdict};
use c_lex::Kind;
use pin_checker::Why;

/// How a call of `alaska` ended.
#[derive(Clone, Copy, Debug, PartialEq, Eq)]
pub enum Status {
    /// `main` of the C program ended with this value, and all was written.
    Done(i32),
    /// The words of the command line are wrong.
    Usage,
    /// The text is no program of the language: the place, as a byte offset from 0, and why.
    Refused(u32, Kind),
    /// The file couldn't be read.
    ReadFault,
    /// What was to be written couldn't be written.
    WriteFault,
    /// An access would have reached an address without a byte, or a word was freed that is not live.
    Trap(u64, TrapKind),
    /// Each thread that had not ended waited for a mutex or for another thread.
    AllBlocked,
    /// The journal had no room for another event.
    TurnLimit,
    /// A print would have passed the output's limit.
    OutputLimit,
    /// A call of this thread would have needed more than was left.
    StackLimit(u32),
    /// Want of memory.
    NoMemory,
    /// The text was checked against the rules of C, and this was found.
    Checked(Verdict),
    /// The run ended, and two of its accesses race: their places, as byte offsets from 0, that of the earlier turn first.
    Raced(u32, u32),
    /// The code of the text was written.
    Built,
    /// The code of the text has nodes that are nested deeper than a code file may have them.
    CodeTooDeep,
    /// The code of the text takes more bytes than a code file may have.
    CodeTooLong,
    /// The bytes are no code file: how many bytes at their front may begin one, or all of them where it is a condition that fails.
    BadCode(u32),
    /// The code of the file isn't safe for moves.
    UnsafeCode {
        /// The place that the first node tells that fails, as a byte offset from 0.
        place: u32,
        /// Its reason.
        why: Why,
    },
    /// The file has more bytes than a code file may have.
    FileTooLong,
}

// The number that the program ends with after a check.
fn number_of_check(verdict: Verdict) -> u8
    ensures { result ≡ number_of_check verdict }
{
    match verdict {
        Verdict::Broke { .. } => 12,
        Verdict::Ended { .. } | Verdict::AllBlocked { .. } | Verdict::TurnsSpent { .. } => 0,
    }
}

impl Status {
    ghost use Rattle.std.specs.Prelude.{◌≡◌};
    ghost use Rattle.run_notes.specs.Statuses.{number_of};

    /// The number that the program ends with: 0 exactly where `main` of the C program ended, or a check found no broken rule, or its code was
    /// built, and all was written.
    pub fn number(self) -> u8
        ensures { result ≡ number_of self }
    {
        match self {
            Status::Done(_) => 0,
            Status::Usage => 2,
            Status::Refused(_, _) => 3,
            Status::ReadFault => 4,
            Status::WriteFault => 5,
            Status::Trap(_, _) => 6,
            Status::AllBlocked => 7,
            Status::TurnLimit => 8,
            Status::OutputLimit => 9,
            Status::StackLimit(_) => 10,
            Status::NoMemory => 11,
            Status::Checked(verdict) => number_of_check(verdict),
            Status::Raced(_, _) => 13,
            Status::Built => 0,
            Status::CodeTooDeep => 14,
            Status::BadCode(_) => 15,
            Status::UnsafeCode { .. } => 16,
            Status::CodeTooLong => 17,
            Status::FileTooLong => 18,
        }
    }
}
