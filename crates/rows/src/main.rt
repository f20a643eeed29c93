//! Tables of what this project's calls give: the tokens of texts, which texts are accepted, what texts come to as they are compiled, where the checker
//! and a plain walk along paths agree, and what the machine does with texts.
//! Promises nothing upward: it is a program, whose output is held against what was worked out by hand.
//! Stands on c_lex, c_grammar's laws, c_parse, c_types, ir_lower, compile_passes, pin_checker, flat_machine, ak_world, and alaska_run's `read` and
//! `compile`.
#![tactic(auto)]

mod compiled;
mod machine;
mod texts;
mod tokens;
mod walking;

use std::io;

fn main(rt: HostRuntime) -> io::Result<()> {
    println!(rt; "# Tokens")?;
    tokens::run(&rt)?;
    println!(rt; "# Texts that are accepted or refused")?;
    texts::run(&rt)?;
    println!(rt; "# Trees and codes of texts")?;
    compiled::run(&rt)?;
    println!(rt; "# The checker beside a walk along paths")?;
    walking::run(&rt)?;
    println!(rt; "# Texts on the machine")?;
    machine::run(&rt, rt.alloc())
}
