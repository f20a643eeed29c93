//! Globals and literals are written when a run is opened.

ghost use Rattle.std.specs.Prelude.{◌≡◌, ◌+◌, ◌^◌, ◌≤◌, true, length, drop, map, sum_by};
ghost use Rattle.c_tree.specs.TypedForm.{taken};
ghost use Rattle.c_tree.specs.TypedViews.{init_view};
ghost use Rattle.flat_store.specs.Flat.{first_address, with_bytes};
ghost use Rattle.flat_threads.specs.Contexts.{layout_of};
ghost use Rattle.flat_meaning.specs.Image.{first_bytes, globals_written, literals_written, global_address, literal_address};
ghost use Rattle.struct_ir.specs.Whole.{is_init_in};

use c_tree::typed::Init;
use defrag_move::Arena;
use flat_store::FIRST_ADDRESS;
use flat_threads::{Program, taken};
use struct_ir::IrGlobal;

/// Writes what globals begin with, and the literals.
pub(crate) fn write_plain_data(arena: &mut Arena, program: &Program)
    requires fit { let x = layout_of program.now in literal_address x (length x.literals) ≤ first_address + length arena.old.bytes }
    requires small { first_address + length arena.old.bytes ≤ 2 ^ 32 }
    ensures { let x = layout_of program.now in arena.new ≡ record arena.old { bytes = literals_written (literal_address x 0) x.literals (globals_written x (global_address x 0) x.globals arena.old.bytes) } }
{
    let code = program.code();
    let mut at = FIRST_ADDRESS;
    for global in &code.globals {
        write_global(arena, program, at, global);
        at += taken(u64::from(global.size));
    }
    write_literals(arena, program, at);
}

// The literals, the first of them at this address.
fn write_literals(arena: &mut Arena, program: &Program, from: u64)
    requires first { first_address ≤ from }
    requires fit { from + sum_by (λ bs. taken (length bs)) program.now.literals ≤ first_address + length arena.old.bytes }
    requires small { first_address + length arena.old.bytes ≤ 2 ^ 32 }
    ensures { arena.new ≡ record arena.old { bytes = literals_written from program.now.literals arena.old.bytes } }
{
    let mut at = from;
    for literal in &program.code().literals {
        write_literal(arena, at, &literal.bytes);
        at += taken(literal.bytes.len() as u64);
    }
}

// What a global begins with.
fn write_global(arena: &mut Arena, program: &Program, at: u64, global: &IrGlobal)
    requires first { first_address ≤ at }
    requires fits { at + 16 ≤ first_address + length arena.old.bytes }
    requires there { is_init_in (length program.now.literals) (init_view global.now.init) ≡ true }
    ensures { arena.new ≡ record arena.old { bytes = with_bytes arena.old.bytes at (first_bytes (layout_of program.now) (init_view global.now.init)) } }
{
    let (bytes, word) = match global.init {
        Init::Zero => return,
        Init::Num(n) => (n.ty.bits / 8, n.to_bits()),
        Init::Literal(n) => (8, program.literal_start(n)),
    };
    match arena.store(at, bytes, word) {
        Ok(()) => {}
        Err(_) => unreachable!(),
    }
}

// The bytes of a literal.
fn write_literal(arena: &mut Arena, at: u64, bytes: &[u8])
    requires first { first_address ≤ at }
    requires fit { at + length bytes.now ≤ first_address + length arena.old.bytes }
    ensures { arena.new ≡ record arena.old { bytes = with_bytes arena.old.bytes at bytes.now } }
{
    let mut next = at;
    for byte in bytes {
        match arena.store(next, 1, u64::from(*byte)) {
            Ok(()) => {}
            Err(_) => unreachable!(),
        }
        next += 1;
    }
}
