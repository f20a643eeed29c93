//! A module for each crate.
mod arena;
mod blocks;
mod bytes;
mod evacuation;
mod handles;
mod heaps;
mod plans;
mod turns;
