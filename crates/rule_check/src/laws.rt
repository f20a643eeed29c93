//! Rows of the definitions, as contracts of functions that do nothing.
ghost use Rattle.rule_check.specs.Rows.{ChecksStand, AnswersStand, DrawsStand};

/// Checks of toy programs, worked out by hand: each verdict once, what turns ask for and are told, and the first draws.
pub fn worked_checks_stand()
    ensures checks { ChecksStand }
    ensures answers { AnswersStand }
    ensures draws { DrawsStand }
{}
