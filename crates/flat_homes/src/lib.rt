//! What the rules of a run say of this machine's threads that are asked home.
//! Promises upward: a thread that is asked home comes within as many turns as the code has Looks and steps, and two more; and so, with
//! `every`, how many Turn entries a run of the machine has between two barriers.
//! Stands on flat_machine for the machine, on flat_meaning's and flat_threads' proofs of how a thread goes on alone, and on world_rules for
//! the bound over any machine.
#![tactic(auto)]

pub mod laws;
