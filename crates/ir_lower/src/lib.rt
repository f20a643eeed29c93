//! Lowering: the structured code of a typed program.
//! Promises upward: the code is just what each form of the tree is lowered to, valid, without Looks, safepoints or slots.
//! Stands on the typed tree, on structured code, and on the definitions of what each form is lowered to.
#![tactic(auto)]

mod counts;
mod labels;
mod left;
mod lowering;
mod statements;

pub use lowering::lower;
