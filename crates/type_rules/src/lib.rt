//! The rules of C's types, one for each operator, conversion, assignment and call, on operands that are typed; specifiers and declarators; and what is asked of the source of a node.
//! Promises upward: each call gives the tree, the type, the size, the place or the refusal that the definition of typing gives for these operands.
//! Stands on c_typing's definitions and type_context.
#![tactic(auto)]

pub mod assignments;
pub mod calls;
pub mod casts;
pub mod constants;
pub mod conversions;
pub mod declarators;
pub mod logical;
pub mod members;
pub mod operators;
pub mod places;
pub mod specifiers;
pub mod trees;
pub mod unary;
