//! The text of mode churn: a C program that gives up objects and takes others over and over, as a seed chooses.
//! Promises upward: the text of a seed and a size, exactly, and that it is no longer than a text may be.
//! Stands on ak_words, flat_rules for the draws, and itoa.
#![tactic(auto)]

mod draws;
mod lines;
mod text;

pub use text::churn_text;
