use crate::code::IrFunc;

/// What a function's nodes may name, as numbers.
#[derive(Drop)]
pub struct Scope<'a> {
    /// How many registers there are.
    pub temps: u32,
    /// How many pin slots.
    pub slots: u32,
    /// How many stack objects.
    pub objects: usize,
    /// How many globals.
    pub globals: usize,
    /// How many literals.
    pub literals: usize,
    /// The functions.
    pub funcs: &'a [IrFunc],
}

/// How many places and registers an action takes, and whether it has a result.
#[derive(Clone, Copy)]
pub struct Counts {
    /// How many places.
    pub places: usize,
    /// How many registers.
    pub temps: usize,
    /// Whether there is a result.
    pub gives: bool,
}

/// Whether a node stands in a loop, and whether it stands in a loop's body.
#[derive(Clone, Copy)]
pub struct Around {
    /// In a loop's body or step.
    pub in_loop: bool,
    /// In a loop's body.
    pub in_body: bool,
}
