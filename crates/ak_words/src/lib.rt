//! The words of C that every crate speaks: numbers, rules and operations, and want of memory.
//! Promises upward: each operation on C integers equals its definition on whole numbers without bound.
//! Stands on std alone.
#![tactic(auto)]

pub mod conversion;
pub mod evaluation;
pub mod int_type;
pub mod memory;
pub mod number;
pub mod operation;
pub mod rule;
pub mod wrapping;

pub use conversion::{common, convert, promote};
pub use evaluation::apply;
pub use int_type::IntType;
pub use memory::NoMemory;
pub use number::Num;
pub use operation::Op;
pub use rule::Rule;
pub use wrapping::wrap_apply;
