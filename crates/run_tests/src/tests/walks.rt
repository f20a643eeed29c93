ghost use Rattle.std.specs.Prelude.{◌≡◌, OnOk};

use super::programs::{empty, int};
use ak_words::{NoMemory, Num};
use block_store::{Store, Value};
use source_assignments::Exit;
use source_state::control::{Pending, Todo};
use source_state::{KeptStore, Locals, Variable};
use source_statements::finish;
use source_tree::tree::{SharedNode, SharedProgram, SharedRow, SharedStmt};
use std::alloc::Global;
use std::rc::Rc;

// A caller, proved from the contracts alone: what is left to do is carried out, and a turn in vain can be taken back.
fn tried(
    k: &Todo,
    alloc: Global,
    program: &SharedProgram,
    locals: &mut Locals,
    store: &mut KeptStore,
) -> Result<Pending, NoMemory>
    ensures locals { OnOk result (locals.new.now ≡ locals.old.kept) }
    ensures store { OnOk result (store.new.now ≡ store.old.kept) }
{
    let q = finish(k, Exit::End, alloc, program, 0, locals, store)?;
    locals.undo();
    store.undo();
    Ok(q)
}

// `x = 5; return x;`, where `x` is local 0.
fn assigned_and_returned(alloc: Global) -> Result<Todo, NoMemory> {
    let x = int(alloc, 0, SharedNode::Local(0))?;
    let five = int(alloc, 0, SharedNode::Num(Num::int(5)))?;
    let mut stmts = Vec::new(alloc);
    stmts.push(Rc::new(alloc, SharedStmt::Assign(0, x, five))?)?;
    let x = int(alloc, 0, SharedNode::Local(0))?;
    stmts.push(Rc::new(alloc, SharedStmt::Return(0, Some(x)))?)?;
    let all = Rc::new(alloc, SharedRow { stmts })?;
    let leaves = Rc::new(alloc, Todo::Leaves)?;
    Ok(Todo::ThenRow(all, 0, leaves))
}

#[test]
fn a_row_comes_to_its_return(rt: HostRuntime) -> Result<(), NoMemory> {
    let mut variables = Vec::new(rt.alloc());
    variables.push(Variable::Unset)?;
    let mut locals = Locals::new(rt.alloc(), variables);
    let mut store = KeptStore::new(rt.alloc(), Store::new(rt.alloc()));
    let k = assigned_and_returned(rt.alloc())?;
    let q = tried(&k, rt.alloc(), &empty(rt.alloc()), &mut locals, &mut store)?;
    let five = Value::Num(Num::int(5));
    let left = match q {
        Pending::Leave(value) => value,
        _ => None,
    };
    assert_eq!(rt; left, Some(five));
    assert_eq!(rt; locals.get(0), Variable::Unset);
    Ok(())
}
