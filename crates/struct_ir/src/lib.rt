//! Structured code: its nodes, its one definition of control, its threads, and which code is valid.
//! Promises upward: a run is its steps and its way a path, maps of code keep every turn, and erase and is_valid are exact.
//! Stands on the words of C, the pieces of the typed tree and the accesses of the block store.
#![tactic(auto)]

pub mod code;
mod constant;
mod copies;
pub mod copying;
pub mod erasing;
pub mod ir;
pub mod laws;
pub mod linear;
mod linear_facts;
pub mod linear_laws;
pub mod placed;
pub mod scope;
mod step;
pub mod valid;

pub use code::{
    Action, Calc, CallNode, IrFunc, IrGlobal, Node, NodeKind, Numbers, Place, Places, StackObject,
    StepNode,
};
pub use erasing::erase;
pub use ir::Ir;
pub use linear::{CodeFunc, Instr, InstrKind};
pub use placed::is_placed;
pub use valid::is_valid;

pub mod meaning_laws;
