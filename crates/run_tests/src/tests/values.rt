ghost use Rattle.std.specs.Prelude.{◌≡◌};
ghost use Rattle.c_meaning.specs.Values.{forward, of_two};

use ak_words::{Num, Op, Rule};
use block_store::{BlockKind, Cell, Ptr, Store, Value};
use c_meaning::types::{align_in, size_in};
use c_tree::typed::{CType, Layout};
use source_values::{forward, negated, on_numbers, on_pointers};
use std::test::Fail;

// A caller, proved from the contracts alone: the pointer to the n-th int behind a pointer.
fn int_behind(store: &Store, p: Value, n: Value) -> Result<Value, Rule>
    ensures { result ≡ of_two store.now (forward 4) p n }
{
    forward(store, 4, p, n)
}

fn int(n: i32) -> Value {
    Value::Num(Num::int(n))
}

// C11 6.5.5: a quotient goes towards 0, and the remainder has the sign of the dividend.
#[test]
fn numbers_and_pointers(rt: HostRuntime) -> Result<(), Fail> {
    let mut store = Store::new(rt.alloc());
    for (op, a, b, result) in [
        (Op::Div, -7, 2, -3),
        (Op::Rem, -7, 2, -1),
        (Op::Shr, 9, 1, 4),
        (Op::Lt, 2, 3, 1),
    ] {
        assert_eq!(rt; on_numbers(op, int(a), int(b)), Ok(int(result)));
    }
    assert_eq!(rt; negated(&store, int(5)), Ok(int(0)));
    let block = store.make(12, BlockKind::Heap, Cell::Byte(0))?;
    let at = |offset| Value::Pointer(Ptr::To { block, offset });
    assert_eq!(rt; int_behind(&store, at(0), int(3)), Ok(at(12)));
    assert_eq!(rt; int_behind(&store, at(8), int(-2)), Ok(at(0)));
    assert!(rt; int_behind(&store, at(0), int(4)).is_err());
    assert_eq!(rt; on_pointers(&store, Op::Lt, at(4), at(8)), Ok(int(1)));
    Ok(())
}

// The struct of a char and an int has 8 bytes, and three of them 24.
#[test]
fn sizes(rt: HostRuntime) -> Result<(), Fail> {
    let alloc = rt.alloc();
    let layout = Layout {
        offsets: vec![in alloc; 0, 4]?,
        types: Vec::new(alloc),
        size: 8,
        align: 4,
    };
    let structs = vec![in alloc; layout]?;
    let three = CType::Array(Box::new(alloc, CType::Struct(0))?, 3);
    assert_eq!(rt; size_in(&three, &structs)?, 24);
    assert_eq!(rt; align_in(&three, &structs), 4);
    assert_eq!(rt; size_in(&CType::Mutex, &structs)?, 8);
    Ok(())
}
