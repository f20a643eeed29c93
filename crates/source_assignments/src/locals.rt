//! The begin and the end of a local.

ghost use Rattle.std.specs.Prelude.{◌≡◌, IfOk, OnOk};
ghost use Rattle.std.specs.Option.{option_map, option_copied};
ghost use Rattle.c_tree.specs.TypedViews.{local_view};
ghost use Rattle.c_meaning.specs.Turns.{is_block, is_atomic_local, ended_local, made_local, declared_local};
ghost use Rattle.source_expressions.specs.Ends.{Rest, here_at};
ghost use Rattle.source_assignments.specs.Locals.{Comes};
ghost use Rattle.source_assignments.specs.inner.Numbers.{size_in_program, local_in, Names};

use ak_words::NoMemory;
use block_store::{BlockKind, Cell};
use c_meaning::types::{is_atomic, size_in};
use c_tree::typed::Local;
use source_state::{KeptStore, Locals, Variable};
use source_tree::tree::SharedProgram;

// The local of a number, as its function declares it.
fn declared_as(program: &SharedProgram, function: u32, number: u32) -> Option<&Local>
    ensures { option_map local_view (option_copied result) ≡ local_in program.now function number }
{
    match program.funcs.get(function as usize) {
        Some(func) => func.locals.get(number as usize),
        None => None,
    }
}

/// Whether a local is a block.
pub(crate) fn is_block(program: &SharedProgram, function: u32, number: u32) -> bool
    ensures { result ≡ is_block (local_in program.now function number) }
{
    match declared_as(program, function, number) {
        Some(local) => local.in_memory,
        None => false,
    }
}

/// Whether a local is an atomic number.
pub(crate) fn is_atomic_local(program: &SharedProgram, function: u32, number: u32) -> bool
    ensures { result ≡ is_atomic_local (local_in program.now function number) }
{
    match declared_as(program, function, number) {
        Some(local) => is_atomic(&local.ty),
        None => false,
    }
}

// The size of a local in bytes.
fn size_of_local(program: &SharedProgram, function: u32, number: u32) -> Result<u32, NoMemory>
    ensures { IfOk result (λ size. size ≡ size_in_program program.now (local_in program.now function number)) }
{
    match declared_as(program, function, number) {
        Some(local) => size_in(&local.ty, &program.structs),
        None => Ok(0),
    }
}

/// The block of a local ends, if it has one.
pub fn end_local(locals: &mut Locals, store: &mut KeptStore, number: u32) -> Result<(), NoMemory>
    ensures now { OnOk result (Comes (ended_local number) locals.old.now store.old.now locals.new.now store.new.now) }
    ensures locals { OnOk result (locals.new.kept ≡ locals.old.kept) }
    ensures store { OnOk result (store.new.kept ≡ store.old.kept) }
{
    if let Variable::Lies(block) = locals.get(number) {
        locals.set(number, Variable::Unset)?;
        store.end(block)?;
    }
    Ok(())
}

/// A local gets a block of its own, whose name is given.
pub(crate) fn make_local(
    program: &SharedProgram,
    function: u32,
    locals: &mut Locals,
    store: &mut KeptStore,
    number: u32,
) -> Result<u64, NoMemory>
    ensures block { IfOk result (λ block. Names block (ended_local number) locals.old.now store.old.now) }
    ensures now { OnOk result ((r : Rest) → Comes (made_local (here_at program.now function r) number) locals.old.now store.old.now locals.new.now store.new.now) }
    ensures locals { OnOk result (locals.new.kept ≡ locals.old.kept) }
    ensures store { OnOk result (store.new.kept ≡ store.old.kept) }
{
    end_local(locals, store, number)?;
    let size = size_of_local(program, function, number)?;
    let block = store.make(size, BlockKind::Local, Cell::Unknown)?;
    locals.set(number, Variable::Lies(block))?;
    Ok(block)
}

/// A declaration without an initialiser is reached.
pub fn declare_local(
    program: &SharedProgram,
    function: u32,
    locals: &mut Locals,
    store: &mut KeptStore,
    number: u32,
) -> Result<(), NoMemory>
    ensures now { OnOk result ((r : Rest) → Comes (declared_local (here_at program.now function r) number) locals.old.now store.old.now locals.new.now store.new.now) }
    ensures locals { OnOk result (locals.new.kept ≡ locals.old.kept) }
    ensures store { OnOk result (store.new.kept ≡ store.old.kept) }
{
    if is_block(program, function, number) {
        make_local(program, function, locals, store, number)?;
        Ok(())
    } else {
        locals.set(number, Variable::Unset)
    }
}
