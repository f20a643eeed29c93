//! Small codes, as the contract of a function that does nothing.

ghost use Rattle.pin_checker.specs.Rows.{RowsHold};
ghost use Rattle.pin_checker.specs.inner.Uses.{KeptPairsAreClean};

/// For which reasons the accesses of small codes fail, one by one.
pub fn small_codes_fail_so()
    ensures { RowsHold }
{}

/// Where each act keeps the pairs of which an access comes later, all pairs are clean.
pub fn kept_pairs_are_clean()
    ensures { KeptPairsAreClean }
{}
