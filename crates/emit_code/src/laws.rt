//! The laws of linear code, as contracts of a function that does nothing.

ghost use Rattle.struct_ir.specs.Emitted.{LinearCodeKeepsEvents, LinearCodeKeepsRuns};
ghost use Rattle.emit_code.specs.Rows.{RowsHold};

/// On every machine for which the beginning and the end of a stack object are nothing, a thread
/// does the same in structured code and in its linear code: in each run, up to the same stop; at
/// the stop; and so in each turn, with its calls.
pub fn linear_code_does_the_same<L, F, S, A>()
    ensures runs { LinearCodeKeepsRuns L F }
    ensures events { LinearCodeKeepsEvents L F S A }
{}

/// Each form of control once: its instructions, one by one.
pub fn small_codes_are_laid_out_so()
    ensures { RowsHold }
{}
