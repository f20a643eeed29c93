ghost use Rattle.std.specs.Prelude.{◌≡◌, ℕ, ◌+◌, ◌*◌, ◌≤◌, Bool, List, length, is_some, count_by};
ghost use Rattle.std.specs.FinSet as set;
ghost use Rattle.std.specs.Ordering.{nat_cmp};
ghost use Rattle.handle_table.specs.Table.{IsFree};
ghost use Rattle.sub_heaps.specs.SubHeaps.{FitsAt, rounded};
ghost use Rattle.sub_heaps.specs.declared.moves.Move.{Move};
ghost use Rattle.sub_heaps.specs.Moving.{AreLegal};
ghost use Rattle.arena_meaning.specs.Arena.{IsConsistent, Storage, places_named};
ghost use Rattle.arena_meaning.specs.Changes.{with_filled, with_new, with_places, without_id};
ghost use Rattle.arena_meaning.specs.Moves.{KeepsObjects, after_plan};

/// The laws of storage: it stays consistent whichever free id and fitting place a new object takes, whichever bytes are written into
/// the sub-heaps, whichever id is freed, and whichever legal moves are made, and those keep each object with its bytes.
pub fn storage_stays_consistent()
    ensures new { (s : Storage) → IsConsistent s → (id at bytes : ℕ) → IsFree s.table id → FitsAt s.heaps (rounded bytes) at → IsConsistent (with_new s (record { at = at; size = rounded bytes; owner = id })) }
    ensures filled { (s : Storage) → IsConsistent s → (at : ℕ) (bytes : List ℕ) → at + length bytes ≤ s.heaps.count * s.heaps.size → IsConsistent (with_filled s at bytes) }
    ensures free { (s : Storage) → IsConsistent s → (id : ℕ) → IsConsistent (without_id s id) }
    ensures moves { (pinned : ℕ → Bool) → (s : Storage) → IsConsistent s → (moves : List Move) → AreLegal pinned s.heaps moves → IsConsistent (after_plan moves s) }
    ensures kept { (pinned : ℕ → Bool) → (s : Storage) → IsConsistent s → (moves : List Move) → AreLegal pinned s.heaps moves → KeepsObjects pinned moves s (after_plan moves s) }
{}

/// The laws of counts: there are as many objects as ids in use, and words name at most as many places as there are words.
pub fn objects_are_counted()
    ensures objects { (s : Storage) → IsConsistent s → length s.heaps.objects ≡ count_by is_some s.table }
    ensures places { (s : Storage) → (words : List ℕ) → (places : set.FinSet nat_cmp) → set.len (with_places (places_named s words) places) ≤ set.len places + length words }
{}
