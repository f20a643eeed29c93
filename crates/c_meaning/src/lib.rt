//! What a C program means, turn by turn, over named blocks: no address, handle or worker.
//! Promises upward: definitions of a turn and of a run, with worked rows; a well formed program's values keep their types, and no turn goes wrong; what the meaning asks of types, for the interpreter and for lowering.
//! Stands on ak_words, c_tree for the typed tree, block_store for blocks and actions, and race_rules for what turns touch.
#![tactic(auto)]

pub mod laws;
pub mod types;
