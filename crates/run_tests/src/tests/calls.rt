ghost use Rattle.std.specs.Prelude.{◌≡◌, ◌∷◌, [], IfOk};

use ak_words::{NoMemory, Num};
use block_store::{Ptr, Value};
use c_tree::typed::{Lib, Piece};
use source_expressions::{called, list_of};
use source_state::control::{Pending, Site, Todo, Values, Wait};
use source_state::frames::one_more;
use source_state::{Printed, SharedAction};
use source_tree::tree::Callee;
use std::alloc::Global;
use std::rc::Rc;

// A caller, proved from the contracts alone: arguments that were gathered one by one are there in order.
fn gathered(alloc: Global, a: Value, b: Value) -> Result<Vec<Value>, NoMemory>
    ensures { IfOk result (λ list. list.items ≡ a ∷ b ∷ []) }
{
    let none = Rc::new(alloc, Values::None)?;
    let one = one_more(alloc, a, &none)?;
    let two = one_more(alloc, b, &one)?;
    list_of(alloc, &two)
}

// What a call of the library with these two arguments ends the turn with.
fn call_of_two(alloc: Global, lib: Lib, a: Value, b: Value) -> Result<Pending, NoMemory> {
    let none = Rc::new(alloc, Values::None)?;
    let one = one_more(alloc, a, &none)?;
    let args = one_more(alloc, b, &one)?;
    let callee = Rc::new(alloc, Callee::Library(lib))?;
    let wait = Wait::Dropped(Rc::new(alloc, Todo::Leaves)?);
    called(alloc, 7, &callee, &args, &wait)
}

#[test]
fn arguments_stand_in_order(rt: HostRuntime) -> Result<(), NoMemory> {
    let one = Value::Num(Num::int(1));
    let two = Value::Num(Num::int(2));
    let list = gathered(rt.alloc(), one, two)?;
    assert_eq!(rt; list.as_slice(), [one, two].as_slice());
    Ok(())
}

#[test]
fn printf_writes_its_numbers(rt: HostRuntime) -> Result<(), NoMemory> {
    let mut pieces = Vec::new(rt.alloc());
    pieces.push(Piece::Signed(32))?;
    pieces.push(Piece::Bytes(b" ".to_vec(rt.alloc())?))?;
    pieces.push(Piece::Hex(32))?;
    let minus_one = Value::Num(Num::int(-1));
    let q = call_of_two(rt.alloc(), Lib::Print(pieces), minus_one, minus_one)?;
    let mut bytes = Vec::new(rt.alloc());
    if let Pending::Act(site, SharedAction::Print(parts), _) = &q {
        assert_eq!(rt; *site, Site::plain(7));
        for part in parts {
            if let Printed::Bytes(all) = part {
                bytes.extend_from_slice(all)?;
            }
        }
    }
    assert_eq!(rt; bytes.as_slice(), b"-1 ffffffff".as_slice());
    Ok(())
}

#[test]
fn an_atomic_call_names_an_atomic_object(rt: HostRuntime) -> Result<(), NoMemory> {
    let null = Value::Pointer(Ptr::Null);
    let q = call_of_two(rt.alloc(), Lib::AtomicAdd, null, Value::Num(Num::int(1)))?;
    let atomic = match &q {
        Pending::Act(site, _, _) => site.atomic,
        _ => false,
    };
    assert!(rt; atomic);
    Ok(())
}

#[test]
fn mutexes_take_one_argument(rt: HostRuntime) -> Result<(), NoMemory> {
    let null = Value::Pointer(Ptr::Null);
    let q = call_of_two(rt.alloc(), Lib::MutexLock, null, null)?;
    assert!(rt; matches!(&q, Pending::Unfit));
    Ok(())
}
