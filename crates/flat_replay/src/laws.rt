//! Laws of journals, as contracts of functions that do nothing.

ghost use Rattle.std.specs.Prelude.{◌≡◌};
ghost use Rattle.ak_trace.specs.Rows.{full_journal};
ghost use Rattle.flat_replay.specs.AccessRows.{OtherNamesDontStand};
ghost use Rattle.flat_replay.specs.Attempts.{attempts_from};
ghost use Rattle.flat_replay.specs.KindRows.{FirstStopsAreTold};
ghost use Rattle.flat_replay.specs.Laws.{AJournalIsOfEvents, AccessesOfGuardedJournalsStay, AccessesOfJournalsStay, BarriersOfARunKeepObjects, JournalsMeanTheSource, JournalsOfCheckedCodeAreMeant, JournalsOfGuardedCodeAreMeant, SmallProgramsFit};
ghost use Rattle.flat_replay.specs.Rows.{full_attempts, BreaksStand, EndsStand, LastsStand, MeaningsStand, TriesStand};

/// At each barrier of a journal that replays, whatever rules of C were broken before: no object moves that a listed slot names, the others
/// slide down, and the object of each id in use keeps its bytes, at the address that the table then has. At each evacuation's entry, where the
/// setting asks for evacuations, the moves are legal and keep such objects and bytes, too; the barrier's own begin at what it leaves.
pub fn barriers_of_a_run_keep_objects()
    ensures { BarriersOfARunKeepObjects }
{}

/// A program with at most 1,048,576 bytes of plain data fits in memory, whatever the settings.
pub fn small_programs_fit()
    ensures { SmallProgramsFit }
{}

/// A journal that replays is of events of the machine that may come, one after the other: they lead to what threads share, to the end of
/// the run and to each thread's stage, and the turns that they make, those that they try, and the ids that they hand out are those of the
/// journal.
pub fn a_journal_is_of_events()
    ensures { AJournalIsOfEvents }
{}

/// Of checked code, entry by entry: unless a turn so far broke a rule of C, each byte that the step of a Turn entry reads or writes, or an
/// allocation that a barrier serves, is of a block, at an offset, that the source's turn reaches; and where the blocks of that turn lie is told.
pub fn accesses_of_journals_stay()
    ensures { AccessesOfJournalsStay }
{
    accesses_of_guarded_journals_stay();
}

/// And of code of which it isn't known that each turn takes some answer, as it is made by hand: so it is unless a turn so far broke a rule, or was
/// an operation on a value of a kind that it doesn't take; and of a thread whose own turn is no such operation.
pub fn accesses_of_guarded_journals_stay()
    ensures { AccessesOfGuardedJournalsStay }
{
    flat_simulation::laws::events_follow_code();
}

/// Behind a store to an array, with a name for the array at an address where nothing lies, a state of the machine doesn't stand for the
/// source's, whatever ids were handed out.
pub fn other_names_do_not_stand()
    ensures { OtherNamesDontStand }
{
    flat_simulation::laws::other_names_are_refused();
}

/// A journal of checked code that replays has the code's own meaning over named blocks: where no rule of C is broken, what it printed is
/// what the run of its order prints, and its end is that run's, as the table of ends says; and where one is, what the run prints before the
/// first is what the journal printed first.
pub fn journals_of_checked_code_are_meant()
    ensures { JournalsOfCheckedCodeAreMeant }
{
    journals_of_guarded_code_are_meant();
}

/// And one of code of which it isn't known that each turn takes some answer has that meaning up to the first broken rule, or the first operation on a
/// value of a kind that it doesn't take: if there is neither, in the order, among the turns that were tried, or where all threads wait, output and
/// end are those of its run; and else what the run of the turns before the first prints is what the journal printed first.
pub fn journals_of_guarded_code_are_meant()
    ensures { JournalsOfGuardedCodeAreMeant }
{
    flat_simulation::laws::events_follow_code();
}

/// And so it has the meaning of each program of which that code keeps every turn, as it does of the one from which it was lowered.
pub fn journals_mean_the_source()
    ensures { JournalsMeanTheSource }
{
    lower_turns::laws::code_with_looks_keeps_every_turn();
    lower_turns::laws::calls_are_as_deep();
    journals_of_checked_code_are_meant();
}

/// The attempts of a journal with every kind and every how.
pub fn attempts_of_every_how()
    ensures { attempts_from 0 full_journal ≡ full_attempts }
{}

/// What the journals of small programs mean: where main returns, waits, has no room for a call or prints too much; that none ends since a
/// thread that wasn't made has no room; and where a rule is broken by a turn, by one that trapped, or by one for which main waits.
pub fn small_journals_have_their_meaning()
    ensures lasts { LastsStand }
    ensures tries { TriesStand }
    ensures meanings { MeaningsStand }
    ensures ends { EndsStand }
    ensures breaks { BreaksStand }
{}

/// A journal of a small code made by hand, which adds a pointer to a number before its second print: its first stop, behind one turn, is that
/// operation, though the journal tells of both prints.
pub fn first_stops_are_told()
    ensures { FirstStopsAreTold }
{
    flat_simulation::laws::a_wrong_kind_is_told();
}
