//! The typed tree of a text as text, for tests: a line for each struct and member, global, literal, function and local, and for each statement and
//! expression one with its place, further in than what it is a part of.
ghost use Rattle.std.specs.Prelude.{◌≤◌, length};

use crate::compiled::stmts::write_stmts;
use crate::compiled::types::{write_bytes, write_type};
use alaska_run::read;
use c_lex::CompileFault;
use c_tree::typed::{Func, GlobalVar, Init, Layout, Literal, Local, Typed};
use run_edges::MOST_BYTES;
use std::alloc::{AllocError, Global};
use std::io;

/// The listing of the tree of a text, or where and why the text is refused.
pub(crate) fn listing(alloc: Global, text: &str) -> io::Result<String> {
    if text.len() > MOST_BYTES {
        return Err(io::Error::from(io::ErrorKind::InvalidData));
    }
    let mut out = String::new(alloc);
    match read(alloc, text.as_bytes()) {
        Ok(reading) => write_program(&mut out, &reading.typed)?,
        Err(CompileFault::Refused(refusal)) => {
            write!(out, "refused at {}: {:?}\n", refusal.place, refusal.kind)?;
        }
        Err(CompileFault::NoMemory) => return Err(io::Error::from(io::ErrorKind::OutOfMemory)),
    }
    Ok(out)
}

fn write_program(out: &mut String, typed: &Typed) -> Result<(), AllocError> {
    write_structs(out, &typed.structs)?;
    write_globals(out, &typed.globals)?;
    write_literals(out, &typed.literals)?;
    for (number, f) in typed.funcs.iter().enumerate() {
        write_func(out, number, f)?;
    }
    write!(out, "main: function {}\n", typed.main)
}

fn write_structs(out: &mut String, structs: &[Layout]) -> Result<(), AllocError> {
    for (number, l) in structs.iter().enumerate() {
        write!(
            out,
            "struct {number} of {} bytes, aligned to {}\n",
            l.size, l.align
        )?;
        write_members(out, l)?;
    }
    Ok(())
}

fn write_members(out: &mut String, l: &Layout) -> Result<(), AllocError> {
    for (offset, t) in l.offsets.iter().zip(l.types.iter()) {
        write!(out, "  at {offset}: ")?;
        write_type(out, t)?;
        out.push('\n')?;
    }
    Ok(())
}

fn write_globals(out: &mut String, globals: &[GlobalVar]) -> Result<(), AllocError> {
    for (number, g) in globals.iter().enumerate() {
        write!(out, "global {number}: ")?;
        write_type(out, &g.ty)?;
        write_init(out, g.init)?;
    }
    Ok(())
}

// What a global starts as, to the end of its line.
fn write_init(out: &mut String, init: Init) -> Result<(), AllocError> {
    match init {
        Init::Zero => write!(out, " starts as zero bytes\n"),
        Init::Num(n) => write!(out, " starts as {}\n", n.value),
        Init::Literal(number) => write!(out, " starts as literal {number}\n"),
    }
}

fn write_literals(out: &mut String, literals: &[Literal]) -> Result<(), AllocError> {
    for (number, l) in literals.iter().enumerate() {
        write!(out, "literal {number}:")?;
        write_bytes(out, &l.bytes)?;
        out.push('\n')?;
    }
    Ok(())
}

fn write_func(out: &mut String, number: usize, f: &Func) -> Result<(), AllocError> {
    write!(out, "function {number} of {} parameters: ", f.params)?;
    write_type(out, &f.result)?;
    out.push('\n')?;
    write_locals(out, &f.locals)?;
    write_stmts(out, 1, &f.body)
}

fn write_locals(out: &mut String, locals: &[Local]) -> Result<(), AllocError> {
    for (number, l) in locals.iter().enumerate() {
        write!(out, "  local {number}: ")?;
        write_type(out, &l.ty)?;
        out.push_str(if l.in_memory { " in memory\n" } else { "\n" })?;
    }
    Ok(())
}
