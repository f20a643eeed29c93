//! The rows of an evacuation.
ghost use Rattle.std.specs.Prelude.{◌≡◌, ◌==◌, [], ◌∷◌, Bool, false};
ghost use Rattle.evacuate.specs.Evacuation.{evacuation, holding};
ghost use Rattle.evacuate.specs.Laws.{MovesMade, MovesLegal, FewerHold};
ghost use Rattle.evacuate.specs.Rows.{row, two, thick, chain, full, move};
ghost use Rattle.sub_heaps.specs.Moving.{after_moves};

/// An object of a thin sub-heap goes to the tail of the lowest; a pinned one stays.
pub fn one_leaves()
    ensures moves { (evacuation (λ at. false) row).moves ≡ move 4096 2000 912 ∷ [] }
    ensures emptied { (evacuation (λ at. false) row).emptied ≡ 1 }
    ensures pinned_moves { (evacuation (λ at. at == 4096) row).moves ≡ [] }
    ensures pinned_emptied { (evacuation (λ at. at == 4096) row).emptied ≡ 0 }
    ensures fewer { holding (after_moves (evacuation (λ at. false) row).moves row) ≡ 1 }
{}

/// Two objects of one sub-heap go to two sub-heaps, each to the lowest that has room; where the second finds none, neither goes.
pub fn all_or_none()
    ensures all { (evacuation (λ at. false) two).moves ≡ move 640 192 64 ∷ move 704 256 16 ∷ [] }
    ensures none { (evacuation (λ at. false) full).moves ≡ [] }
{}

/// What holds more than a quarter is not thin, and neither is what was moved into.
pub fn not_thin()
    ensures thick { (evacuation (λ at. false) thick).moves ≡ [] }
    ensures once { (evacuation (λ at. false) chain).moves ≡ move 512 272 16 ∷ [] }
{}

/// A law: the sub-heaps that an evacuation tells of are those after its moves.
pub fn moves_are_made()
    ensures { MovesMade }
{}

/// A law: the moves of an evacuation are legal, each at its turn, and none is of an object that an earlier one moved.
pub fn moves_are_legal()
    ensures { MovesLegal }
{}

/// A law: as many sub-heaps fewer hold an object as an evacuation answers.
pub fn fewer_sub_heaps_hold_objects()
    ensures { FewerHold }
{}
