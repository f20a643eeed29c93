//! What the operators of C give of values, over named blocks.
//! Promises upward: each operation gives the value, or names the rule, that the meaning of the source says.
//! Stands on c_meaning's definitions, on block_store, and on c_tree for types.
#![tactic(auto)]

mod operations;
mod pointers;

pub use operations::{
    addend, backward, converted, distance, forward, int_of, negated, on_numbers, on_pointers,
    selected, tested, truth_of, updated,
};
