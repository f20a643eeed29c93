//! Laws of control and of threads, as contracts of functions that do nothing.

ghost use Rattle.struct_ir.specs.Erased.{ErasureKeepsTurns};
ghost use Rattle.struct_ir.specs.Laws.{MapsMapRuns, RunsAreSteps, SafeCodeIsPinned, StructuredShrinks, WaysArePaths};
ghost use Rattle.struct_ir.specs.Lists.{ListsAreNothing};
ghost use Rattle.struct_ir.specs.MapsTurns.{MapsMapTurns};
ghost use Rattle.struct_ir.specs.PlacedRows.{DueRowsHold};
ghost use Rattle.struct_ir.specs.Threads.{EventsKeepWays};

/// In structured code what is left to do before a round is over or the call is left gets less.
pub fn structured_code_shrinks()
    ensures { StructuredShrinks }
{}

/// In any code and on any machine a run is its steps up to the first stop or fault, the way of a
/// call is a path, and so each act that a call of safe code comes to is pinned.
pub fn runs_go_by_paths<P, L, F>()
    ensures runs { RunsAreSteps P L F }
    ensures paths { WaysArePaths P L F }
    ensures pinned { SafeCodeIsPinned P L F }
{}

/// A map from one code to another, which may leave out what is idle, maps every run.
pub fn maps_keep_runs<P, Q, L, F>()
    ensures { MapsMapRuns P Q L F }
{}

/// Such a map keeps every turn of a thread, with its calls.
pub fn maps_keep_turns<P, Q, L, F, S, A>()
    ensures { MapsMapTurns P Q L F S A }
{}

/// Each call of a thread has come by a path of its function, whatever others change meanwhile.
pub fn events_keep_ways<P, L, F, S, A>()
    ensures { EventsKeepWays P L F S A }
{}

/// Where nothing looks at slots and lists, they change nothing.
pub fn lists_are_nothing<P, L, F, S, A>()
    ensures { ListsAreNothing P L F S A }
{}

/// Where Looks and safepoints are idle too, erased code does in each turn what the code does.
pub fn erasure_keeps_turns<L, F, S, A>()
    ensures { ErasureKeepsTurns L F S A }
{}

/// Rows with their safepoints, computed: which safepoints are due, and which aren't.
pub fn small_rows_are_judged_so()
    ensures { DueRowsHold }
{}
