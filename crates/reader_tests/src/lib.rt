//! A caller of each crate of the rules of types that is proved from its contracts alone, and worked rows of small pieces of C.
//! Promises upward: nothing; its contracts are what it is for. It holds no test: the program rows tells which texts are typed.
//! Stands on these crates, and on what they stand on.
#![tactic(auto)]

pub mod judging;
pub mod naming;
pub mod rows;
