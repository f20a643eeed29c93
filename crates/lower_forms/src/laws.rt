//! Laws of lowered code, as contracts of functions that do nothing.

ghost use Rattle.lower_forms.specs.Laws.{LoweredCodeIsBounded, LoweredCodeIsSound, LoweredCodeIsWhole};
ghost use Rattle.lower_forms.specs.Rows.{RowsHold};

/// The code of each well formed program is valid, and has no Look, safepoint, slot or list.
pub fn lowered_code_is_sound()
    ensures { LoweredCodeIsSound }
{}

/// In it main is there and has no parameter, each literal that a global begins with is there, and
/// globals and literals fit the plain area.
pub fn lowered_code_is_whole()
    ensures { LoweredCodeIsWhole }
{}

/// Each function's code has no more registers, stack objects, nodes and levels of nesting than its
/// tree calls for.
pub fn lowered_code_is_bounded()
    ensures { LoweredCodeIsBounded }
{}

/// Small functions are lowered to the nodes that were written for them by hand.
pub fn small_functions_are_lowered_as_they_should()
    ensures { RowsHold }
{}
