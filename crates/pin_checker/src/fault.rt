//! Faults, and which of two is the earlier.

ghost use Rattle.std.specs.Prelude.{◌≡◌, Option};
ghost use Rattle.pin_checker.specs.Faults.{rank};
ghost use Rattle.pin_checker.specs.declared.fault.CheckFault.TheVariants as faults;
ghost use Rattle.pin_checker.specs.inner.Reports.{is_before, earlier, noted};
ghost use Rattle.pin_checker.specs.inner.Found.{earlier_of};

use ak_words::NoMemory;
use thiserror::Error;

/// Why a node fails: the first reason that applies.
#[derive(Clone, Copy, Debug, PartialEq, Eq)]
pub enum Why {
    /// The node isn't valid, or it is a call or a loop without its safepoints, or behind some path
    /// the last Look into an access's slot is of another register than its base.
    BadTemp,
    /// Behind some path there is no Look into an access's slot.
    NoLook,
    /// Behind some path an access's base was assigned since the last Look into its slot.
    StaleLook,
    /// Behind some path a list since lacks an access's slot.
    NotPinned,
}

/// Why code isn't accepted.
#[derive(Clone, Copy, Debug, PartialEq, Eq, Error)]
pub enum CheckFault {
    /// The code isn't safe for moves.
    #[error("{why:?} at byte {place}")]
    Refused {
        /// Where the first node stands that fails, as a byte offset from 0.
        place: u32,
        /// Its reason.
        why: Why,
    },
    /// Want of memory, which no clause ties to a cause.
    #[error("out of memory")]
    NoMemory,
}

impl From<NoMemory> for CheckFault {
    ghost from_gives = { λ _ fault. fault ≡ faults.NoMemory };

    fn from(_error: NoMemory) -> CheckFault {
        CheckFault::NoMemory
    }
}

/// A node that fails.
#[derive(Clone, Copy, Debug, PartialEq, Eq)]
pub struct Fault {
    pub place: u32,
    pub why: Why,
}

fn rank(why: Why) -> u32
    ensures { result ≡ rank why }
{
    match why {
        Why::BadTemp => 0,
        Why::NoLook => 1,
        Why::StaleLook => 2,
        Why::NotPinned => 3,
    }
}

fn is_before(f: Fault, g: Fault) -> bool
    ensures { result ≡ is_before f g }
{
    f.place < g.place || (f.place == g.place && rank(f.why) < rank(g.why))
}

fn earlier(f: Fault, best: Option<Fault>) -> Option<Fault>
    ensures { result ≡ earlier f best }
{
    match best {
        None => Some(f),
        Some(g) => { if is_before(f, g) { Some(f) } else { Some(g) } }
    }
}

/// The earlier one of what was found before and of what is found behind it.
pub fn earlier_of(before: Option<Fault>, behind: Option<Fault>) -> Option<Fault>
    ensures { result ≡ earlier_of before behind }
{
    match behind {
        None => before,
        Some(f) => earlier(f, before),
    }
}

/// The earlier one of the fault of this place and reason, if it is one, and of another.
pub fn noted(is: bool, place: u32, why: Why, best: Option<Fault>) -> Option<Fault>
    ensures { result ≡ noted is place why best }
{
    if is {
        earlier(Fault { place, why }, best)
    } else {
        best
    }
}
