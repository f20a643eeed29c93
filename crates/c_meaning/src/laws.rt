//! Laws of the definitions, as contracts of functions that do nothing.
ghost use Rattle.std.specs.Prelude.{◌≡◌, ℕ, List};
ghost use Rattle.block_store.specs.Actions.{World};
ghost use Rattle.block_store.specs.Runs.{Program, BeginsOutsideCalls, State, own_at, Pick, reaches, run, shown};
ghost use Rattle.c_tree.specs.Typed.{Typed};
ghost use Rattle.c_meaning.specs.Meaning.{program};
ghost use Rattle.c_meaning.specs.TouchRows.{TouchesStand};
ghost use Rattle.c_meaning.specs.Alike.{AsDeep, reached_by, reached_in};
ghost use Rattle.c_meaning.specs.Rows.{RowsStand, RulesStand, OrdersStand};
ghost use Rattle.c_meaning.specs.SwitchRows.{SwitchesStand};
ghost use Rattle.c_meaning.specs.AllocationRows.{AllocationsStand};
ghost use Rattle.c_meaning.specs.AtomicRows.{AtomicsStand};
ghost use Rattle.c_meaning.specs.KindRows.{ValuesAreTold, OperatorsAreTold, ThreadsAreTold};
ghost use Rattle.c_meaning.specs.Sound.{ThreadsBeginTyped, TurnsKeepTypes, TurnsGoOn, SomeAnswerFits, RunsBeginTyped, PicksKeepTypes, RunsKeepTypes, RunsGoOn};

/// Small programs mean what C11 says of them, worked out by hand: whole runs, each rule broken once, what comes first,
/// which statements of a switch and rounds of a do are executed, what a calloc and a realloc give, and what is done in one turn
/// with an atomic number.
pub fn small_programs_mean_what_they_should()
    ensures rows { RowsStand }
    ensures rules { RulesStand }
    ensures orders { OrdersStand }
    ensures switches { SwitchesStand }
    ensures allocations { AllocationsStand }
    ensures atomics { AtomicsStand }
    ensures touches { TouchesStand }
{}

/// What an order shows of a program, turn by turn, tells where its run comes to: so programs that show the same come to the
/// same worlds, and break the same rules after the same turns.
pub fn shown_turns_tell_the_run<A>()
    ensures { (P : Program A) (w v : World) (order : List Pick) → reached_by (run P w order) ≡ reached_in v 0 (shown P w order) }
{}

/// It tells, too, how many calls of each thread wait there: where an order shows the same of two programs, as many.
pub fn shown_turns_tell_the_calls<A, B>()
    ensures { (P : Program A) (Q : Program B) → BeginsOutsideCalls P → BeginsOutsideCalls Q → (w v : World) (order : List Pick) → shown P w order ≡ shown Q v order → (s : State A) (u : State B) → run P w order ≡ reaches s → run Q v order ≡ reaches u → (thread : ℕ) → AsDeep P Q (own_at s.own thread) (own_at u.own thread) }
{}

/// No call waits where a thread of a program begins.
pub fn threads_begin_outside_calls()
    ensures { (t : Typed) → BeginsOutsideCalls (program t) }
{}

/// What is of a type, what an operator takes, and when all of a thread's values are of their types, told by hand.
pub fn types_are_told()
    ensures values { ValuesAreTold }
    ensures operators { OperatorsAreTold }
    ensures threads { ThreadsAreTold }
{}

/// No value of a well formed program is ever of another type than its expression or its local: threads begin so, and each turn
/// keeps it, in every world and under every answer.
pub fn turns_keep_types()
    ensures begins { ThreadsBeginTyped }
    ensures turns { TurnsKeepTypes }
{}

/// A turn of a well formed program never goes wrong: under the answers that fit its action, and under no other, it goes on, ends
/// its thread, waits or breaks a rule. Where it doesn't take Plain, that's since it asks for memory or for a thread.
pub fn turns_go_on()
    ensures ends { TurnsGoOn }
    ensures chosen { SomeAnswerFits }
{}

/// The same in whole runs: each state that a well formed program reaches is well formed, and from each a run goes on by a turn
/// of any thread that runs, under an answer that fits, where that turn doesn't wait.
pub fn runs_go_on()
    ensures begins { RunsBeginTyped }
    ensures picks { PicksKeepTypes }
    ensures types { RunsKeepTypes }
    ensures turns { RunsGoOn }
{}
