//! A Look before each access.
//! Promises upward: valid and covered code with own slots, whose erasure is the input.
//! Stands on structured code and its flow.
#![tactic(auto)]

pub mod inserting;

pub use inserting::{insert, insert_owned};
