//! Small codes, as the contract of a function that does nothing.

ghost use Rattle.run_tests.specs.Rows.{RowsHold};

/// Which small codes are valid, which have their safepoints where they should stand, what is left of one without its Looks, and what
/// the paths through some say, one by one.
pub fn small_codes_are_so()
    ensures { RowsHold }
{}
