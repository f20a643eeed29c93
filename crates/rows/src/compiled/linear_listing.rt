//! Linear code as text, for people and tests: one line an instruction.

use crate::compiled::code_listing::{
    write_call, write_head, write_look, write_return, write_safepoint, write_set, write_step,
};
use ak_words::NoMemory;
use std::alloc::Global;
use struct_ir::linear::{Code, Instr, InstrKind};

/// The code as text, with one line for each function and for each instruction, which begins with
/// its index. Registers are `t0` on, pin slots `s0` on.
///
/// # Errors
///
/// Only want of memory.
pub fn code_text(alloc: Global, code: &Code) -> Result<Vec<u8>, NoMemory> {
    let mut out = String::new(alloc);
    for (i, f) in code.funcs.iter().enumerate() {
        write_head(&mut out, i, f.params, f.temps, f.slots, f.objects.len())?;
        write_instrs(&mut out, &f.instrs)?;
    }
    Ok(out.into_bytes())
}

fn write_instrs(out: &mut String, instrs: &[Instr]) -> Result<(), NoMemory> {
    for (at, i) in instrs.iter().enumerate() {
        write!(out, "{at} ")?;
        write_instr(out, &i.kind)?;
    }
    Ok(())
}

fn write_instr(out: &mut String, kind: &InstrKind) -> Result<(), NoMemory> {
    write_kind(out, kind)?;
    Ok(out.push_str("\n")?)
}

fn write_kind(out: &mut String, kind: &InstrKind) -> Result<(), NoMemory> {
    match kind {
        InstrKind::Set(to, calc) => write_set(out, *to, calc),
        InstrKind::Step(s) => write_step(out, s),
        InstrKind::Look(slot, base) => write_look(out, *slot, *base),
        InstrKind::Safe(slots) => write_safepoint(out, "safe", slots),
        InstrKind::Unless(temp, to) => write_unless(out, *temp, *to),
        InstrKind::Jump(to) => write_jump(out, "goto ", *to),
        InstrKind::Round(to) => write_jump(out, "round goto ", *to),
        InstrKind::Enter(c) => write_call(out, c),
        InstrKind::Leave(temp) => write_return(out, *temp),
    }
}

fn write_unless(out: &mut String, temp: u32, to: usize) -> Result<(), NoMemory> {
    write!(out, "unless t{temp} goto {to}")?;
    Ok(())
}

fn write_jump(out: &mut String, word: &str, to: usize) -> Result<(), NoMemory> {
    write!(out, "{word}{to}")?;
    Ok(())
}
