//! What declarations leave, and what is judged at a declared name: objects, parameters, functions and the table of those that have a body.
//! Promises upward: the context, or the refusal, as the definition of typing has them.
//! Stands on c_typing's definitions, type_context, type_rules and type_locals.
#![tactic(auto)]

pub mod aliases;
pub mod functions;
pub mod heads;
pub mod initials;
pub mod objects;
pub mod parameters;
