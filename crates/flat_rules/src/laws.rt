//! Laws of the rules, and journals worked by hand.
ghost use Rattle.std.specs.Prelude.{◌≡◌, [], ◌∷◌, ◌++◌, replicate, Some, None, pos, drop, take};
ghost use Rattle.ak_trace.specs.declared.endings.End.TheVariants.{Done, AllBlocked, TurnLimit};
ghost use Rattle.flat_rules.specs.Laws.{SpareIsLeft, EventsFit, JournalsFit, TurnLimitAt65, BarriersAlone};
ghost use Rattle.flat_rules.specs.Draws.{draws, seeded};
ghost use Rattle.flat_rules.specs.Toys.{safe, spin, store, lock, alloc, stop, start};
ghost use Rattle.flat_rules.specs.Rows.{told, told_to_evacuate, evacuation_journal, ends_as, done_journal, blocked_journal, spin_journal, every_journal, room_journal, schedule_journal, start_and_join, pick_journal, asked_journal};

/// The first draws from seed 1.
pub fn first_draws()
    ensures { draws 10 (seeded (Some 1)) ≡ 16838 ∷ 5758 ∷ 10113 ∷ 17515 ∷ 31051 ∷ 5627 ∷ 23010 ∷ 7419 ∷ 16212 ∷ 4086 ∷ [] }
{}

/// Main ends at once. Without the last entry there is no end, and without the first no journal.
pub fn main_that_ends()
    ensures whole { ends_as (told 1 None None 1000) (stop (pos 0) ∷ []) [] done_journal ≡ Some (Some (Done (pos 0))) }
    ensures without_last { ends_as (told 1 None None 1000) (stop (pos 0) ∷ []) [] (take 1 done_journal) ≡ Some None }
    ensures without_first { ends_as (told 1 None None 1000) (stop (pos 0) ∷ []) [] (drop 1 done_journal) ≡ None }
{}

/// Main takes a mutex twice.
pub fn main_that_blocks()
    ensures { ends_as (told 1 None None 1000) (lock ∷ lock ∷ []) [] blocked_journal ≡ Some (Some AllBlocked) }
{}

/// Main goes round for ever.
pub fn main_that_spins()
    ensures { ends_as (told 1 None None 70) (spin ∷ []) [] spin_journal ≡ Some (Some TurnLimit) }
{}

/// A barrier after each turn entry.
pub fn a_barrier_for_every()
    ensures { ends_as (told 1 None (Some 1) 1000) (store ∷ store ∷ safe ∷ stop (pos 7) ∷ []) [] every_journal ≡ Some (Some (Done (pos 7))) }
{}

/// A barrier for room.
pub fn a_barrier_for_room()
    ensures { ends_as (told 1 None None 1000) (alloc ∷ alloc ∷ alloc ∷ stop (pos 0) ∷ []) [] room_journal ≡ Some (Some (Done (pos 0))) }
{}

/// An evacuation before a barrier, exactly where the setting asks for it and there is a move.
pub fn an_evacuation_before_a_barrier()
    ensures first { ends_as (told_to_evacuate 1 None None 1000) (alloc ∷ alloc ∷ alloc ∷ stop (pos 0) ∷ []) [] evacuation_journal ≡ Some (Some (Done (pos 0))) }
    ensures asked_for { ends_as (told_to_evacuate 1 None None 1000) (alloc ∷ alloc ∷ alloc ∷ stop (pos 0) ∷ []) [] room_journal ≡ None }
    ensures not_asked_for { ends_as (told 1 None None 1000) (alloc ∷ alloc ∷ alloc ∷ stop (pos 0) ∷ []) [] evacuation_journal ≡ None }
    ensures not_alone { ends_as (told_to_evacuate 1 None None 1000) (alloc ∷ alloc ∷ alloc ∷ stop (pos 0) ∷ []) [] (take 6 evacuation_journal) ≡ None }
{}

/// A thread made during the run, under a schedule.
pub fn a_scheduled_run()
    ensures { ends_as (told 2 (Some 1) None 1000) start_and_join (stop (pos 0) ∷ []) schedule_journal ≡ Some (Some (Done (pos 0))) }
{}

/// A thread that is picked by a draw, and none that would be picked without.
pub fn a_drawn_pick()
    ensures drawn { ends_as (told 2 (Some 1) None 1000) (start ∷ start ∷ []) [] pick_journal ≡ Some None }
    ensures in_order { ends_as (told 2 None None 1000) (start ∷ start ∷ []) [] pick_journal ≡ None }
{}

/// A thread that a draw asks home.
pub fn a_draw_that_asks()
    ensures asked { ends_as (told 1 (Some 1) None 1000) (replicate 8 store ++ safe ∷ []) [] asked_journal ≡ Some None }
    ensures without { ends_as (told 1 None None 1000) (replicate 8 store ++ safe ∷ []) [] asked_journal ≡ None }
{}

/// A law: the spare that the replay counts is the journal's limit less its entries.
pub fn spare_is_what_is_left<S, C>()
    ensures { SpareIsLeft S C }
{}

/// A law: one event adds at most 66 entries.
pub fn one_event_adds_few_entries<S, C>()
    ensures { EventsFit S C }
{}

/// A law: no journal is longer than its limit.
pub fn journals_are_within_their_limit<S, C>()
    ensures { JournalsFit S C }
{}

/// A law: a run without a barrier meets TurnLimit with just 65 entries left, as with 935 entries of 1,000.
pub fn turn_limit_comes_at_65<S, C>()
    ensures { TurnLimitAt65 S C }
{}

/// A law: where an entry is a barrier, no thread was out.
pub fn at_a_barrier_none_is_out<S, C>()
    ensures { BarriersAlone S C }
{}
