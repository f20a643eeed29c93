//! A node of an expression, a type, a struct or an enum, by what its parts came to; string literals, formats and calls of the library.
//! Promises upward: the first fault of the parts, or what the rule of this node gives of the parts that are typed.
//! Stands on c_typing's definitions, on type_context and on the rules of type_rules.
#![tactic(auto)]

pub mod callees;
pub mod enums;
pub mod formats;
pub mod leaves;
pub mod library;
pub mod literals;
pub mod operators;
pub mod structs;
