//! What lowering keeps: the turns of a program, over named blocks.
//! Promises upward: the code of every well formed program shows under every order what the program shows, turn by turn.
//! Stands on the meanings of the source and of structured code, and on what each form is lowered to.
#![tactic(auto)]

pub mod laws;
