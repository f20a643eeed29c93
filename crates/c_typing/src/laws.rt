//! Laws of the judgement, and worked rows, without a function of the code's.

ghost use Rattle.c_typing.specs.Laws.{RefusesLeast, TypedOrRefused, GivesWellFormed};
ghost use Rattle.c_typing.specs.Rows.{Rows};

/// The refusal of a program is the least of its faults, by place and then by number.
pub fn least()
    ensures { RefusesLeast }
{}

/// A program has one typed tree and no fault, or one refusal and a fault.
pub fn exclusive()
    ensures { TypedOrRefused }
{}

/// Small programs, each with its first refusal or none.
pub fn rows_hold()
    ensures { Rows }
{}

/// The typed tree that a program has is well formed.
pub fn well_formed()
    ensures { GivesWellFormed }
{}
