//! The blocks at the start of a run.

ghost use Rattle.std.specs.Prelude.{◌≡◌, ◌++◌, ◌∷◌, [], IfOk, OnOk, length, map, Some};
ghost use Rattle.block_store.specs.declared.values.BlockKind.TheVariants as kinds;
ghost use Rattle.block_store.specs.declared.values.Cell.TheVariants as cells;
ghost use Rattle.block_store.specs.Blocks.{made, literal_block};
ghost use Rattle.block_store.specs.Cells.{cells_of};
ghost use Rattle.c_meaning.specs.Meaning.{first_blocks};
ghost use Rattle.c_tree.specs.TypedViews.{global_view, literal_view, layout_view};
ghost use Rattle.source_tree.specs.SharedViews.{program_of};
ghost use Rattle.block_meaning.specs.inner.Starts.{global_in};

use ak_words::{NoMemory, Num};
use block_store::{BlockKind, Cell, Ptr, Store, Value};
use c_meaning::types::size_in;
use c_tree::typed::{GlobalVar, Init, Layout, Literal};
use source_tree::tree::SharedProgram;
use std::alloc::Global;

// The next block, of so many zero bytes.
fn make_zeros(store: &mut Store, size: u32) -> Result<(), NoMemory>
    ensures { OnOk result (store.new ≡ made store.old size kinds.Global (cells.Byte 0)) }
{
    if store.names() == u64::MAX {
        return Err(NoMemory);
    }
    let _name = store.make(size, BlockKind::Global, Cell::Byte(0))?;
    Ok(())
}

// The next block, which holds exactly this value.
fn make_value(store: &mut Store, v: Value) -> Result<(), NoMemory>
    ensures { OnOk result (store.new ≡ store.old ++ Some (record { kind = kinds.Global; cells = cells_of v }) ∷ []) }
{
    let block = store.names();
    make_zeros(store, v.access().size())?;
    match store.store(Ptr::To { block, offset: 0 }, v.access(), v) {
        Ok(()) => Ok(()),
        Err(_) => Err(NoMemory),
    }
}

// The next block is that of a global, where there are so many globals.
fn make_global(
    store: &mut Store,
    structs: &[Layout],
    globals: u32,
    g: &GlobalVar,
) -> Result<(), NoMemory>
    ensures { OnOk result (store.new ≡ store.old ++ global_in (map layout_view structs.now) globals (global_view g.now) ∷ []) }
{
    match g.init {
        Init::Zero => {
            let size = size_in(&g.ty, structs)?;
            make_zeros(store, size)?;
            Ok(())
        }
        Init::Num(n) => {
            let number = Num::wrapping(n.ty, n.value);
            make_value(store, Value::Num(number))?;
            Ok(())
        }
        Init::Literal(number) => {
            let block = u64::from(globals) + u64::from(number);
            make_value(store, Value::Pointer(Ptr::To { block, offset: 0 }))?;
            Ok(())
        }
    }
}

// The next block is that of a literal.
fn make_literal(store: &mut Store, l: &Literal) -> Result<(), NoMemory>
    ensures { OnOk result (store.new ≡ store.old ++ literal_block (literal_view l.now) ∷ []) }
{
    if store.names() == u64::MAX || l.bytes.len() as u64 > u64::from(u32::MAX) {
        return Err(NoMemory);
    }
    let _name = store.make_literal(&l.bytes)?;
    Ok(())
}

// The next blocks are those of globals.
fn make_globals(store: &mut Store, structs: &[Layout], all: &[GlobalVar]) -> Result<(), NoMemory>
    ensures { OnOk result (store.new ≡ store.old ++ map (global_in (map layout_view structs.now) (length all.now)) (map global_view all.now)) }
{
    let Ok(count) = u32::try_from(all.len()) else {
        return Err(NoMemory);
    };
    'globals: for g in all {
        make_global(store, structs, count, g)?;
    }
    Ok(())
}

// The next blocks are those of literals.
fn make_literals(store: &mut Store, all: &[Literal]) -> Result<(), NoMemory>
    ensures { OnOk result (store.new ≡ store.old ++ map literal_block (map literal_view all.now)) }
{
    'literals: for l in all {
        make_literal(store, l)?;
    }
    Ok(())
}

/// The blocks of a program at its start: its globals and then its literals, each in order (C11 6.7.9, 6.4.5).
pub fn first_store(alloc: Global, program: &SharedProgram) -> Result<Store, NoMemory>
    ensures { IfOk result (λ store. store ≡ first_blocks (program_of program.now)) }
{
    let mut store = Store::new(alloc);
    make_globals(&mut store, &program.structs, &program.globals)?;
    make_literals(&mut store, &program.literals)?;
    Ok(store)
}
