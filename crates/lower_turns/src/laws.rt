//! Laws of what lowering keeps, as contracts of functions that do nothing.

ghost use Rattle.lower_turns.specs.Apart.{RecursionIsToldApart};
ghost use Rattle.lower_turns.specs.Rows.{RowsStand, RulesStand, OrdersStand, AtomicsStand};
ghost use Rattle.lower_turns.specs.Turns.{LowerKeepsEveryTurn, LowerKeepsEveryRun, ErasedCodeShowsTheSame, CodeWithLooksKeepsEveryTurn, CodeWithLooksKeepsEveryRun, CodeBeginsAlike, CodeKeepsEveryTurn, CodeGoesOn, CallsAreAsDeep, ErasedKeepsEveryTurn};

/// The code of every well formed program shows under every order of turns and answers what the program
/// shows: how each turn went, how many calls of its thread wait then, the world after it, and which
/// rule a turn breaks, and where. So each run comes to the same.
pub fn lower_keeps_every_turn()
    ensures turns { LowerKeepsEveryTurn }
    ensures runs { LowerKeepsEveryRun }
{}

/// Code shows under every order what it shows without its Looks, safepoints, slots and lists. So code
/// that is a well formed program's without them shows what the program shows, and code keeps every turn
/// of a program where it does so without them.
pub fn code_with_looks_keeps_every_turn()
    ensures erased { ErasedCodeShowsTheSame }
    ensures turns { CodeWithLooksKeepsEveryTurn }
    ensures runs { CodeWithLooksKeepsEveryRun }
    ensures kept { ErasedKeepsEveryTurn }
{}

/// Code that is a well formed program's without its Looks, safepoints, slots and lists keeps every turn
/// of the program, from the world on in which the code begins by its own globals and literals. No turn
/// of it is of a wrong kind: under the answers that fit it goes on, waits, or breaks the program's rule.
pub fn code_keeps_every_turn()
    ensures begins { CodeBeginsAlike }
    ensures turns { CodeKeepsEveryTurn }
    ensures goes_on { CodeGoesOn }
{}

/// After each order a thread runs in code that keeps a program's every turn where it does in the
/// program, and as many calls wait in it. So a turn enters a call of the code where it enters one of
/// the program, and leaves one where it leaves one.
pub fn calls_are_as_deep()
    ensures { CallsAreAsDeep }
{}

/// Code that calls itself for ever in place of a loop goes as the loop does, in the same worlds, under
/// every order; but it doesn't keep the loop's every turn, since more and more of its calls wait.
pub fn recursion_is_told_apart()
    ensures { RecursionIsToldApart }
{}

/// The code of each of these programs shows under these orders what the source shows: how each turn
/// went, how many calls wait then, and the world after it, and which rule a turn breaks, and where.
pub fn worked_programs_keep_their_turns()
    ensures rows { RowsStand }
    ensures rules { RulesStand }
    ensures orders { OrdersStand }
    ensures atomics { AtomicsStand }
{}
