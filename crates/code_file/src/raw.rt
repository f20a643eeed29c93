//! Code as a file spells it, before it is judged.

use c_tree::typed::Literal;
use struct_ir::code::{IrGlobal, Node, StackObject};

/// A function of a code file.
#[derive(Drop)]
pub struct RawFunc {
    /// How many parameters it has.
    pub params: u32,
    /// How many registers it has.
    pub temps: u32,
    /// How many pin slots it has.
    pub slots: u32,
    /// Its stack objects.
    pub objects: Vec<StackObject>,
    /// Its nodes, of which no call has its list.
    pub nodes: Vec<Node>,
}

/// The code of a file.
#[derive(Drop)]
pub struct RawCode {
    /// The number of main.
    pub main: u32,
    /// The globals, in order.
    pub globals: Vec<IrGlobal>,
    /// The string literals, in order.
    pub literals: Vec<Literal>,
    /// The functions, in order.
    pub funcs: Vec<RawFunc>,
}
