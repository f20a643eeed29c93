//! Laws of marks and lives, as contracts of functions that do nothing.

ghost use Rattle.pin_flow.specs.Laws.{BasesAreKept, CoveredIsFresh, FreshIsCovered, SlotsAreOwn, ThroughoutIsAtPoints, UnheldIsUnavailable};
ghost use Rattle.pin_flow.specs.Live.{LiveIsUsed};
ghost use Rattle.pin_flow.specs.Points.{NumbersRise};

/// What is live at a position is just what some path from there uses.
pub fn live_is_used()
    ensures { LiveIsUsed }
{}

/// What states say, by the marks of Looks, holds on each path, and some path shows it.
pub fn states_speak_of_paths()
    ensures covered { CoveredIsFresh }
    ensures fresh { FreshIsCovered }
    ensures unheld { UnheldIsUnavailable }
{}

/// Bases are those of the code without its Looks, and each has a slot of its own.
pub fn bases_have_own_slots()
    ensures kept { BasesAreKept }
    ensures own { SlotsAreOwn }
{}

/// In numbered code no two nodes have the same number, and code that is hoisted by its states is
/// hoisted at each point.
pub fn points_have_own_numbers()
    ensures rise { NumbersRise }
    ensures hoisted { ThroughoutIsAtPoints }
{}
