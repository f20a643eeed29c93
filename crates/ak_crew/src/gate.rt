//! Where a worker may be held.
use std::marker::Sync;

/// The call that a worker is about to make.
#[derive(Clone, Copy, Debug, PartialEq, Eq)]
pub enum Point {
    Find,
    Act,
    Home,
}

/// What a worker goes through before each of its calls. It has no say in what the calls come to.
pub trait Gate: Sync {
    /// Lets the worker go on.
    fn pause(&self, worker: u32, point: Point);
}

/// A gate that holds nobody.
pub struct NoGate;

impl Gate for NoGate {
    fn pause(&self, _worker: u32, _point: Point) {}
}
