ghost use Rattle.std.specs.Prelude.{◌≡◌, OnOk};

use ak_words::{NoMemory, Num, Rule};
use block_store::{BlockKind, Cell, Ptr, Store, Value};
use source_state::KeptStore;
use std::test::Fail;

// A caller, proved from the contracts alone: a turn that makes a block, ends another and comes to nothing leaves the store
// as it was kept.
fn turn_in_vain(store: &mut KeptStore, ended: u64) -> Result<(), NoMemory>
    ensures { OnOk result (store.new ≡ record { now = store.old.kept; kept = store.old.kept }) }
{
    store.make(4, BlockKind::Local, Cell::Unknown)?;
    store.end(ended)?;
    store.undo();
    Ok(())
}

// The block that such a turn ended lives again, with its value, and the one that it made is gone.
#[test]
fn an_ended_block_lives_again(rt: HostRuntime) -> Result<(), Fail> {
    let mut store = KeptStore::new(rt.alloc(), Store::new(rt.alloc()));
    let block = store.make(4, BlockKind::Heap, Cell::Byte(0))?;
    let at = Ptr::To { block, offset: 0 };
    let seven = Value::Num(Num::int(7));
    assert_eq!(rt; store.store_value(at, seven), Ok(()));
    store.keep();
    turn_in_vain(&mut store, block)?;
    assert_eq!(rt; store.store().load(at, seven.access()), Ok(seven));
    assert_eq!(rt; store.store().names(), 1);
    store.end(block)?;
    store.keep();
    store.undo();
    assert_eq!(rt; store.free(at), Err(Rule::C10));
    Ok(())
}
