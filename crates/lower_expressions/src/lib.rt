//! Lowering of expressions: the nodes that an expression, a place, an operator and a call become, and how objects are reached.
//! Promises upward: behind the nodes that are there stand just those that the form is lowered to, and a value is in the register that is named.
//! Stands on the typed tree, on structured code, and on the definitions of what each form is lowered to.
#![tactic(auto)]

pub mod expressions;
pub mod forms;
pub mod frame;
mod homes;
pub mod nodes;
mod operators;
pub mod types;
