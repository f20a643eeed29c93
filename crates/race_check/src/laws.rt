//! Laws and rows of the definitions, as contracts of functions that do nothing.
ghost use Rattle.race_check.specs.Ends.{OneEndAlone};
ghost use Rattle.race_check.specs.Resting.{EndedBlocksRest};
ghost use Rattle.race_check.specs.Rows.{EndsStand};

/// A law: of an order of a program one end alone is told.
pub fn one_end_alone()
    ensures { OneEndAlone }
{}

/// A law: no turn reads or writes a block that has ended before it.
pub fn ended_blocks_rest()
    ensures { EndedBlocksRest }
{}

/// Ends by hand: a race, one behind which a rule is broken, turns that a mutex orders, and a rule.
pub fn ends_by_hand()
    ensures { EndsStand }
{}
