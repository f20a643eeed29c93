ghost use Rattle.std.specs.Prelude.{◌≡◌, OnOk};

use super::programs::int;
use ak_words::{IntType, NoMemory, Num};
use block_store::{Store, Value};
use c_tree::typed::{CType, Local};
use source_assignments::Exit;
use source_assignments::assignments::assign;
use source_assignments::locals::{declare_local, end_local};
use source_state::control::Todo;
use source_state::{KeptStore, Locals, Variable};
use source_tree::tree::{SharedFunc, SharedNode, SharedProgram, SharedRow};
use std::alloc::Global;
use std::rc::Rc;

// A caller, proved from the contracts alone: a local that was declared and has ended leaves what leads back.
fn declared_and_ended(
    program: &SharedProgram,
    locals: &mut Locals,
    store: &mut KeptStore,
    number: u32,
) -> Result<(), NoMemory>
    ensures locals { OnOk result (locals.new.kept ≡ locals.old.kept) }
    ensures store { OnOk result (store.new.kept ≡ store.old.kept) }
{
    declare_local(program, 0, locals, store, number)?;
    end_local(locals, store, number)?;
    Ok(())
}

// A program of one function, whose local 0 is an `int` in memory, and local 1 one that isn't.
fn two_locals(alloc: Global) -> Result<SharedProgram, NoMemory> {
    let mut locals = Vec::new(alloc);
    for in_memory in [true, false] {
        locals.push(Local {
            ty: CType::Int(IntType::int()),
            in_memory,
        })?;
    }
    let mut funcs = Vec::new(alloc);
    funcs.push(SharedFunc {
        params: 0,
        locals,
        result: CType::Void,
        body: Rc::new(
            alloc,
            SharedRow {
                stmts: Vec::new(alloc),
            },
        )?,
    })?;
    Ok(SharedProgram {
        structs: Vec::new(alloc),
        globals: Vec::new(alloc),
        literals: Vec::new(alloc),
        funcs,
        main: 0,
    })
}

// Two locals without a value.
fn unset(alloc: Global) -> Result<Locals, NoMemory> {
    let mut variables = Vec::new(alloc);
    variables.push(Variable::Unset)?;
    variables.push(Variable::Unset)?;
    Ok(Locals::new(alloc, variables))
}

#[test]
fn a_block_ends_with_its_local(rt: HostRuntime) -> Result<(), NoMemory> {
    let program = two_locals(rt.alloc())?;
    let mut locals = unset(rt.alloc())?;
    let mut store = KeptStore::new(rt.alloc(), Store::new(rt.alloc()));
    declared_and_ended(&program, &mut locals, &mut store, 0)?;
    assert_eq!(rt;
        (store.store().names(), store.store().live_size(0)),
        (1, None)
    );
    assert_eq!(rt; locals.get(0), Variable::Unset);
    Ok(())
}

#[test]
fn a_local_gets_a_value(rt: HostRuntime) -> Result<(), NoMemory> {
    let program = two_locals(rt.alloc())?;
    let mut locals = unset(rt.alloc())?;
    let store = KeptStore::new(rt.alloc(), Store::new(rt.alloc()));
    let k = Rc::new(rt.alloc(), Todo::Leaves)?;
    let left = int(rt.alloc(), 0, SharedNode::Local(1))?;
    let right = int(rt.alloc(), 0, SharedNode::Num(Num::int(5)))?;
    let exit = assign(
        &left,
        &right,
        rt.alloc(),
        &program,
        0,
        &mut locals,
        &store,
        &k,
    )?;
    assert!(rt; matches!(&exit, Exit::End));
    assert_eq!(rt; locals.get(1), Variable::Holds(Value::Num(Num::int(5))));
    Ok(())
}
