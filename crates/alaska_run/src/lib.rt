//! The public call `alaska`: from the words of a command line to what a C program writes and how it ends, or which rule of C it breaks first; and its first two steps, `read` from a text to its typed tree, and `compile` from there to the machine's code.
//! Promises upward: what is written and how it ended is what the run's journal replays to, on the text's own code; in mode race, whether two accesses of that run race, by the text's own tree; in mode check, what is found of that tree; in mode build, the file of its checked code, which mode load loads again; each other status has its cause. A text has one typed tree, checked code that keeps every turn of it, and linear code, or one refusal.
//! Stands on c_lex, c_parse and c_types for reading, on ir_lower, lower_turns and compile_passes for the code, on run_words for the words, on run_edges for the text, the statuses and the sinks, on ak_crew over ak_world and flat_machine, on rule_check, race_check, and on code_save and code_load.
#![tactic(auto)]

mod building;
mod call;
mod checking;
pub mod compiling;
mod ending;
pub mod laws;
mod loading;
mod preparing;
mod racing;
mod reading;
mod running;

pub use call::alaska;
pub use compiling::{Built, compile};
pub use ending::Ending;
pub use flat_machine::{Mode, Settings, TrapKind};
pub use reading::{Reading, read};
pub use run_notes::Status;
