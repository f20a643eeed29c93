//! The words of the command line.
//! Promises upward: the settings that the words want, or none exactly where they are wrong.
//! Stands on ak_words, flat_rules and clap.
#![tactic(auto)]

mod command;
mod numbers;
mod settings;

pub use settings::read_settings;
