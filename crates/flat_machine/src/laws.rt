//! Laws of the machine's calls, as contracts of functions that do nothing.

ghost use Rattle.flat_machine.specs.Laws.{ActIsItsEvent, BarrierIsItsEvent, ChoicesAreLeast, EvacuationIsItsEvent, MachineIsFlat};
ghost use Rattle.flat_machine.specs.Limits.{JournalsFit};
ghost use Rattle.flat_machine.specs.Nulls.{NullAtAct, NullAtBarrier};
ghost use Rattle.flat_machine.specs.Readiness.{WaitsAreTold};
ghost use Rattle.flat_machine.specs.ServedRows.{ServedRowsHold};

/// What is chosen at an allocation is the least free id and the lowest place that fits.
pub fn choices_are_least()
    ensures { ChoicesAreLeast }
{}

/// What a context waits for is what its stage waits for.
pub fn waits_are_told()
    ensures { WaitsAreTold }
{}

/// Act, barrier and evacuation do events that may come: what is chosen at an allocation is free and fits, and what a listed slot names is not
/// moved.
pub fn calls_are_events()
    ensures act { ActIsItsEvent }
    ensures barrier { BarrierIsItsEvent }
    ensures evacuation { EvacuationIsItsEvent }
{}

/// The machine is one that the rules of a run are of.
pub fn machine_is_flat()
    ensures { MachineIsFlat }
{}

/// An allocation gets null just where it asks for more than a sub-heap has, or, at a barrier, where no sub-heap has room for it when its turn
/// comes, or no id is free.
pub fn nulls_have_their_cause()
    ensures act { NullAtAct }
    ensures barrier { NullAtBarrier }
{}

/// Small codes with callocs and reallocs under what the machine chooses: what they get, at once and at barriers, and what objects are left.
pub fn small_codes_get_what_they_should()
    ensures { ServedRowsHold }
{}

/// No journal that replays has more entries than the settings allow.
pub fn journals_are_within_their_limit()
    ensures { JournalsFit }
{}
