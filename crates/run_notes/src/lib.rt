//! What is told of a run at its end: its status, with the number that the program ends with, and the text of note.
//! Promises upward: the report of a run that ended, the one line of a run that never began, the lines of a check, of the races of a run and of code that
//! was built, and the status of each end, exactly.
//! Stands on ak_words for the rules of C, c_lex for the kinds of refusals, ak_trace for the ends of a run and of a check, pin_checker for why code isn't
//! safe for moves, run_report and itoa.
#![tactic(auto)]

mod checks;
mod codes;
mod ends;
mod lines;
mod pieces;
mod races;
mod report;
mod status;

pub use checks::check_line;
pub use codes::built_line;
pub use ends::status_of;
pub use lines::fault_line;
pub use races::{RACE_LINE_BYTES, RaceNote, RaceSide, push_race_line, status_with};
pub use report::push_report;
pub use status::Status;
