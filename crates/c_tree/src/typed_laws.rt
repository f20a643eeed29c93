//! Worked rows of the definitions, without a function of the code's.

ghost use Rattle.c_tree.specs.TypedRows.{TypedRowsHold};

/// The layout of structs and the bytes of formats, on worked rows.
pub fn typed_rows_hold()
    ensures { TypedRowsHold }
{}
