//! Small pieces of C, as the contract of a function that does nothing.

ghost use Rattle.reader_tests.specs.Rows.{RowsHold};

/// What some small expressions, formats, declarators and functions are typed to, one by one.
pub fn small_pieces_are_typed_so()
    ensures { RowsHold }
{}
