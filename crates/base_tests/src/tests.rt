//! A module for each crate; of the shelf and the sink one for proved callers, one for reads and one for writes.
mod callers;
mod journal;
mod reads;
mod sizes;
mod words;
mod writes;
