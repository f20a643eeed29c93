ghost use Rattle.std.specs.Prelude.{◌≡◌, OnOk};

use ak_words::{NoMemory, Num};
use block_store::Value;
use source_state::{Locals, Variable};
use std::test::Fail;

// A caller, proved from the contracts alone: a turn in vain leaves the locals as they were.
fn in_vain(locals: &mut Locals, number: u32, value: Value) -> Result<(), NoMemory>
    ensures { OnOk result (locals.new ≡ record { now = locals.old.now; kept = locals.old.now }) }
{
    locals.keep();
    locals.set(number, Variable::Holds(value))?;
    locals.undo();
    Ok(())
}

#[test]
fn a_local_and_its_undoing(rt: HostRuntime) -> Result<(), Fail> {
    let alloc = rt.alloc();
    let mut locals = Locals::new(alloc, vec![in alloc; Variable::Unset, Variable::Unset]?);
    let seven = Value::Num(Num::int(7));
    locals.set(1, Variable::Holds(seven))?;
    in_vain(&mut locals, 1, Value::Num(Num::int(8)))?;
    assert_eq!(rt; locals.get(0), Variable::Unset);
    assert_eq!(rt; locals.get(1), Variable::Holds(seven));
    assert_eq!(rt; locals.get(2), Variable::Unset);
    Ok(())
}
