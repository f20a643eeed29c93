ghost use Rattle.race_rules.specs.Laws.{ClocksKnow, ClocksBegin, ClocksGoOn, WalksBegin, RacesAreCaught, WalksGoOn, BlocksMayGo, FirstsAreFound};
ghost use Rattle.std.specs.Prelude.{◌≡◌, true, false, [], ◌∷◌};
ghost use Rattle.race_rules.specs.declared.touch.TouchKind.TheVariants.{Read, Write, AtomicRead, AtomicWrite, Lock, Start, Join};
ghost use Rattle.race_rules.specs.Kinds.{clash, outdoes};
ghost use Rattle.race_rules.specs.Clocks.{nothing};
ghost use Rattle.race_rules.specs.Histories.{noted};
ghost use Rattle.race_rules.specs.Rows.{RacingRow, ShownRow, HandedRow, ApartRow, AtomicsRow, MixedRow, turn, guarded, made, known_after, seen};

/// A law: a turn's clock knows just the turn and what is before it.
pub fn clocks_know_what_is_before()
    ensures { ClocksKnow }
{}

/// A law: the clocks begin as they should.
pub fn clocks_begin()
    ensures { ClocksBegin }
{}

/// A law: and go on so.
pub fn clocks_go_on()
    ensures { ClocksGoOn }
{}

/// A law: a walk begins.
pub fn walks_begin()
    ensures { WalksBegin }
{}

/// A law: the second turn of a race is caught, and no other.
pub fn races_are_caught()
    ensures { RacesAreCaught }
{}

/// A law: a walk goes on over a turn that isn't caught.
pub fn walks_go_on()
    ensures { WalksGoOn }
{}

/// A law: a block that is touched no more may leave the history.
pub fn blocks_may_go()
    ensures { BlocksMayGo }
{}

/// A law: the first turn of a race is told by the second's clock.
pub fn firsts_are_found()
    ensures { FirstsAreFound }
{}

/// Turns by hand race, or are one before the other, as they should.
pub fn worked_turns_race()
    ensures race { RacingRow }
    ensures shown { ShownRow }
    ensures handed { HandedRow }
    ensures apart { ApartRow }
    ensures atomics { AtomicsRow }
    ensures mixed { MixedRow }
{}

/// Kinds by hand: reads don't clash, nor do atomic ones; a plain one clashes with an atomic one that writes.
pub fn kinds_by_hand()
    ensures reads { clash Read Read ≡ false }
    ensures writes { clash Write Read ≡ true }
    ensures atomics { clash AtomicWrite AtomicWrite ≡ false }
    ensures mixed { clash AtomicWrite Read ≡ true }
    ensures loads { clash AtomicRead Read ≡ false }
    ensures calls { clash Lock Write ≡ false }
    ensures write_outdoes { outdoes Write AtomicWrite ≡ true }
    ensures read_does_not { outdoes Read AtomicWrite ≡ false }
    ensures atomic_does_not { outdoes AtomicWrite Write ≡ false }
{}

/// What turns know, by hand: a lock knows what the last owner of its mutex did, and a lock of another mutex doesn't.
pub fn locks_by_hand()
    ensures same { known_after guarded (turn 1 Lock 2) 0 ≡ 3 }
    ensures other { known_after guarded (turn 1 Lock 3) 0 ≡ 0 }
    ensures held { known_after (turn 0 Lock 2 ∷ []) (turn 1 Lock 2) 0 ≡ 0 }
    ensures read { known_after guarded (turn 1 Read 2) 0 ≡ 0 }
{}

/// An atomic read knows what the atomic writes of its cells knew, and no other touch does.
pub fn atomics_by_hand()
    ensures read { known_after (turn 0 AtomicWrite 4 ∷ []) (turn 1 AtomicRead 4) 0 ≡ 1 }
    ensures other { known_after (turn 0 AtomicWrite 4 ∷ []) (turn 1 AtomicRead 5) 0 ≡ 0 }
    ensures write { known_after (turn 0 AtomicWrite 4 ∷ []) (turn 1 AtomicWrite 4) 0 ≡ 0 }
    ensures plain { known_after (turn 0 Write 4 ∷ []) (turn 1 AtomicRead 4) 0 ≡ 0 }
{}

/// A thread knows what was before it was made, and who joins it knows all its turns; who doesn't knows none.
pub fn threads_by_hand()
    ensures begins { known_after (turn 0 (Start 1) 0 ∷ []) (turn 1 Write 0) 0 ≡ 1 }
    ensures joined { known_after made (turn 0 (Join 1) 0) 1 ≡ 2 }
    ensures not_joined { known_after made (turn 0 Read 0) 1 ≡ 0 }
    ensures other { known_after made (turn 0 (Join 2) 0) 1 ≡ 0 }
{}

/// What is kept of a cell, by hand: a write that knows of a read takes its place, and one that doesn't stands beside it.
pub fn cells_by_hand()
    ensures known { noted (λ t. 5) (seen 7 1 Write) (seen 4 0 Read ∷ []) ≡ seen 7 1 Write ∷ [] }
    ensures unknown { noted nothing (seen 7 1 Write) (seen 4 0 Read ∷ []) ≡ seen 4 0 Read ∷ seen 7 1 Write ∷ [] }
    ensures not_outdone { noted (λ t. 5) (seen 7 1 Read) (seen 4 0 Write ∷ []) ≡ seen 4 0 Write ∷ seen 7 1 Read ∷ [] }
{}
