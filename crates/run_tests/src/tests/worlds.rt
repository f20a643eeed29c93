ghost use Rattle.std.specs.Prelude.{◌≡◌, IfOk, IsTrue};

use ak_words::{IntType, NoMemory, Num, Rule};
use block_store::{Access, Answer, BlockKind, Cell, Ptr, Store, Value};
use source_state::{Done, KeptStore, Printed, SharedAction, World};
use std::alloc::Global;
use std::test::Fail;

// A caller, proved from the contracts alone: a thread that has to wait for a mutex has changed nothing of the world.
fn must_wait(world: &mut World, alloc: Global, thread: u32, at: Ptr) -> Result<bool, NoMemory>
    ensures { IfOk result (λ waits. IsTrue waits → world.new ≡ world.old) }
{
    let done = world.act(alloc, thread, Answer::Plain, SharedAction::Lock(at))?;
    Ok(matches!(done, Done::Blocked))
}

// A world in which nothing was done.
fn empty_world(alloc: Global) -> World {
    World {
        store: KeptStore::new(alloc, Store::new(alloc)),
        output: Vec::new(alloc),
        threads: Vec::new(alloc),
        reached: Vec::new(alloc),
    }
}

// A block in place of another takes what both have, and the old one is gone; where there is none the old one is as it was.
#[test]
fn a_block_in_place_of_another(rt: HostRuntime) -> Result<(), Fail> {
    let alloc = rt.alloc();
    let mut world = empty_world(alloc);
    let block = world.store.make(4, BlockKind::Heap, Cell::Byte(7))?;
    let at = Ptr::To { block, offset: 0 };
    let seven = Done::Went(Some(Value::Num(Num::wrapping(IntType::char(), 7))));
    let byte = Access::Number(IntType::char());
    for (answer, done) in [
        (Answer::Plain, Done::Unfit),
        (Answer::None, Done::Went(Some(Value::Pointer(Ptr::Null)))),
    ] {
        let action = SharedAction::Reallocate(at, 6);
        assert_eq!(rt; world.act(alloc, 0, answer, action)?, done);
        assert_eq!(rt;
            world.act(alloc, 0, Answer::Plain, SharedAction::Load(at, byte))?,
            seven
        );
    }
    let new = Ptr::To {
        block: 1,
        offset: 0,
    };
    assert_eq!(rt;
        world.act(alloc, 0, Answer::Got, SharedAction::Reallocate(at, 6))?,
        Done::Went(Some(Value::Pointer(new)))
    );
    assert_eq!(rt; world.reached.len(), 2);
    assert_eq!(rt;
        world.act(alloc, 0, Answer::Plain, SharedAction::Load(new, byte))?,
        seven
    );
    for answer in [Answer::Plain, Answer::Got, Answer::None] {
        assert_eq!(rt;
            world.act(alloc, 0, answer, SharedAction::Reallocate(at, 6))?,
            Done::Broke(Rule::C10)
        );
    }
    Ok(())
}

// Thread 1 takes the mutex and thread 0 waits; what is printed is counted, and a refused allocation gives null.
#[test]
fn two_threads(rt: HostRuntime) -> Result<(), Fail> {
    let alloc = rt.alloc();
    let mut world = empty_world(alloc);
    let block = world.store.make(8, BlockKind::Global, Cell::Byte(0))?;
    let mutex = Ptr::To { block, offset: 0 };
    assert!(rt; !must_wait(&mut world, alloc, 1, mutex)?);
    assert!(rt; must_wait(&mut world, alloc, 0, mutex)?);
    assert_eq!(rt;
        world.act(alloc, 0, Answer::Plain, SharedAction::Unlock(mutex))?,
        Done::Broke(Rule::C13)
    );
    let parts = vec![in alloc; Printed::Bytes(vec![in alloc; 104, 105]?)]?;
    assert_eq!(rt;
        world.act(alloc, 0, Answer::Plain, SharedAction::Print(parts))?,
        Done::Went(Some(Value::Num(Num::int(2))))
    );
    assert_eq!(rt; world.output.len(), 2);
    assert_eq!(rt;
        world.act(
            alloc,
            0,
            Answer::None,
            SharedAction::Allocate(8, Cell::Unknown)
        )?,
        Done::Went(Some(Value::Pointer(Ptr::Null)))
    );
    Ok(())
}
