ghost use Rattle.std.specs.Prelude.{◌≡◌, IsTrue};

use ak_words::{IntType, Num, Rule};
use block_store::{Access, BlockKind, Cell, Change, LockEnd, Ptr, Store, StoreFault, Value};
use std::process::Abort;
use std::test::Fail;

const BYTE: IntType = IntType {
    signed: false,
    bits: 8,
};

const UNSIGNED_CHAR: Access = Access::Number(BYTE);

const INT: Access = Access::Number(IntType::INT);

const LONG: Access = Access::Number(IntType::LONG);

fn to(block: u64, offset: u32) -> Ptr {
    Ptr::To { block, offset }
}

fn number(ty: IntType, value: i128) -> Value {
    Value::Num(Num::wrapping(ty, value))
}

// Loads by each row, and compares the answer.
fn check_loads(rt: &impl Abort, store: &Store, rows: &[(Ptr, Access, Result<Value, Rule>)]) {
    for (at, how, answer) in rows {
        assert_eq!(rt; store.load(*at, *how), *answer);
    }
}

// -2 is the bytes fe ff ff ff from the lowest on.
#[test]
fn numbers_lie_lowest_byte_first(rt: HostRuntime) -> Result<(), Fail> {
    let mut store = Store::new(rt.alloc());
    let block = store.make(8, BlockKind::Local, Cell::Byte(0))?;
    let minus_two = number(IntType::INT, -2);
    assert_eq!(rt;
        store.store(to(block, 4), minus_two.access(), minus_two),
        Ok(())
    );
    let rows = [
        (to(block, 4), UNSIGNED_CHAR, Ok(number(BYTE, 254))),
        (to(block, 7), UNSIGNED_CHAR, Ok(number(BYTE, 255))),
        (to(block, 4), INT, Ok(minus_two)),
        (to(block, 0), LONG, Ok(number(IntType::LONG, -8589934592))),
    ];
    check_loads(&rt, &store, &rows);
    Ok(())
}

#[test]
fn the_first_broken_rule(rt: HostRuntime) -> Result<(), Fail> {
    let mut store = Store::new(rt.alloc());
    let block = store.make(16, BlockKind::Heap, Cell::Unknown)?;
    let pointer = Value::Pointer(to(block, 3));
    assert_eq!(rt; store.store(to(block, 0), Access::Pointer, pointer), Ok(()));
    let rows = [
        (to(block, 0), Access::Pointer, Ok(pointer)),
        (Ptr::Null, INT, Err(Rule::C5)),
        (to(1, 0), INT, Err(Rule::C5)),
        (to(block, 16), UNSIGNED_CHAR, Err(Rule::C5)),
        (to(block, 13), INT, Err(Rule::C5)),
        (to(block, 5), INT, Err(Rule::C6)),
        (to(block, 8), INT, Err(Rule::C4)),
        (to(block, 8), Access::Pointer, Err(Rule::C4)),
        (to(block, 0), LONG, Err(Rule::C16)),
        (to(block, 7), UNSIGNED_CHAR, Err(Rule::C16)),
    ];
    check_loads(&rt, &store, &rows);
    let null = Value::Pointer(Ptr::Null);
    let one = number(IntType::INT, 1);
    let stored = [
        store.store(to(block, 8), Access::Pointer, null),
        store.store(to(block, 0), one.access(), one),
    ];
    assert_eq!(rt; stored, [Ok(()); 2]);
    let rows = [
        (to(block, 8), LONG, Ok(number(IntType::LONG, 0))),
        (to(block, 8), Access::Pointer, Ok(null)),
        (to(block, 0), Access::Pointer, Err(Rule::C16)),
    ];
    check_loads(&rt, &store, &rows);
    Ok(())
}

#[test]
fn ends_of_blocks(rt: HostRuntime) -> Result<(), Fail> {
    let mut store = Store::new(rt.alloc());
    let literal = store.make_literal(&[65, 0])?;
    let heap = store.make(4, BlockKind::Heap, Cell::Unknown)?;
    assert_eq!(rt; [literal, heap], [0, 1]);
    let one = number(IntType::CHAR, 1);
    let answers = [
        store.store(to(literal, 0), one.access(), one),
        store.free(Ptr::Null),
        store.free(to(literal, 0)),
        store.free(to(heap, 1)),
        store.free(to(heap, 0)),
        store.free(to(heap, 0)),
    ];
    let wanted = [
        Err(Rule::C12),
        Ok(()),
        Err(Rule::C10),
        Err(Rule::C10),
        Ok(()),
        Err(Rule::C10),
    ];
    assert_eq!(rt; answers, wanted);
    let sizes = [store.live_size(heap), store.live_size(literal)];
    assert_eq!(rt; sizes, [None, Some(2)]);
    let letter = Access::Number(IntType::CHAR);
    let row = (to(literal, 0), letter, Ok(number(IntType::CHAR, 65)));
    check_loads(&rt, &store, &[row]);
    Ok(())
}

#[test]
fn an_ended_name(rt: HostRuntime) -> Result<(), Fail> {
    let mut store = Store::new(rt.alloc());
    let local = store.make(0, BlockKind::Local, Cell::Unknown)?;
    let before = store.live_size(local);
    store.end(local);
    assert_eq!(rt; [before, store.live_size(local)], [Some(0), None]);
    Ok(())
}

// A caller, proved from the contracts alone: a thread that has to wait for a mutex has changed nothing.
fn must_wait(store: &mut Store, at: Ptr, thread: u32) -> bool
    ensures { IsTrue result → store.new ≡ store.old }
{
    matches!(store.lock(at, thread), Ok(LockEnd::Held))
}

// Thread 1 has the mutex, thread 0 waits, and only thread 1 may set it free.
#[test]
fn one_holder(rt: HostRuntime) -> Result<(), Fail> {
    let mut store = Store::new(rt.alloc());
    let mutex = to(store.make(8, BlockKind::Global, Cell::Byte(0))?, 0);
    let locked = [store.lock(mutex, 1), store.lock(mutex, 1)];
    assert_eq!(rt; locked, [Ok(LockEnd::Got), Err(Rule::C13)]);
    assert!(rt; must_wait(&mut store, mutex, 0));
    let answers = [
        store.may_destroy(mutex),
        store.unlock(mutex, 0),
        store.unlock(mutex, 1),
        store.may_destroy(mutex),
    ];
    let wanted = [Err(Rule::C13), Err(Rule::C13), Ok(()), Ok(())];
    assert_eq!(rt; answers, wanted);
    Ok(())
}

// The first broken rule of a copy, and copies inside a block and between two.
#[test]
fn copies(rt: HostRuntime) -> Result<(), Fail> {
    let mut store = Store::new(rt.alloc());
    let literal = store.make_literal(&[104, 105, 0])?;
    let block = store.make(8, BlockKind::Heap, Cell::Unknown)?;
    let answers = [
        store.copy(to(block, 1), to(9, 0), 4, 4, false),
        store.copy(to(literal, 0), to(9, 0), 2, 1, false),
        store.copy(to(literal, 0), to(literal, 0), 2, 1, false),
        store.copy(to(block, 0), to(block, 1), 2, 1, false),
        store.copy(to(block, 0), to(block, 0), 8, 4, true),
        store.copy(Ptr::Null, Ptr::Null, 0, 1, false),
        store.copy(to(block, 1), to(literal, 0), 3, 1, false),
        store.copy(to(block, 4), to(block, 1), 3, 1, false),
    ];
    let wanted = [
        Err(Rule::C6),
        Err(Rule::C5),
        Err(Rule::C12),
        Err(Rule::C11),
        Ok(()),
        Ok(()),
        Ok(()),
        Ok(()),
    ];
    assert_eq!(rt; answers, wanted);
    let lengths = [
        store.text_len(to(block, 4)),
        store.text_len(to(block, 2)),
        store.text_len(to(block, 7)),
        store.text_len(to(literal, 3)),
    ];
    let wanted = [Ok(2), Ok(1), Err(Rule::C4), Err(Rule::C5)];
    assert_eq!(rt; lengths, wanted);
    Ok(())
}

// A realloc ends the old block, so a second one of the same pointer breaks C10, and changes nothing.
#[test]
fn a_block_is_renewed_once(rt: HostRuntime) -> Result<(), Fail> {
    let mut store = Store::new(rt.alloc());
    let block = store.make(8, BlockKind::Heap, Cell::Unknown)?;
    let seven = number(IntType::INT, 7);
    assert_eq!(rt; store.store(to(block, 0), seven.access(), seven), Ok(()));
    assert_eq!(rt; store.renew(to(block, 0), 40), Ok(1));
    assert_eq!(rt;
        store.renew(to(block, 0), 40),
        Err(StoreFault::Broke(Rule::C10))
    );
    let rows = [
        (to(block, 0), INT, Err(Rule::C5)),
        (to(1, 0), INT, Ok(seven)),
        (to(1, 4), INT, Err(Rule::C4)),
        (to(1, 36), INT, Err(Rule::C4)),
        (to(1, 40), UNSIGNED_CHAR, Err(Rule::C5)),
    ];
    check_loads(&rt, &store, &rows);
    Ok(())
}

#[test]
fn a_block_is_renewed_by_fewer_cells(rt: HostRuntime) -> Result<(), Fail> {
    let mut store = Store::new(rt.alloc());
    let block = store.make(4, BlockKind::Heap, Cell::Byte(9))?;
    assert_eq!(rt; store.may_end(to(block, 1)), Err(Rule::C10));
    assert_eq!(rt; store.may_end(to(block, 0)), Ok(()));
    assert_eq!(rt; store.renew(to(block, 0), 2), Ok(1));
    assert_eq!(rt; store.may_end(to(block, 0)), Err(Rule::C10));
    let rows = [
        (to(1, 1), UNSIGNED_CHAR, Ok(number(BYTE, 9))),
        (to(1, 2), UNSIGNED_CHAR, Err(Rule::C5)),
    ];
    check_loads(&rt, &store, &rows);
    Ok(())
}

// 8 + (2^31 - 1) is 2^31 + 7, which is -2^31 + 7 as an int.
#[test]
fn numbers_are_changed(rt: HostRuntime) -> Result<(), Fail> {
    let mut store = Store::new(rt.alloc());
    let literal = store.make_literal(&[5, 0, 0, 0])?;
    let block = store.make(4, BlockKind::Global, Cell::Byte(0))?;
    let unknown = store.make(4, BlockKind::Heap, Cell::Unknown)?;
    let int = |value: i128| Num::wrapping(IntType::INT, value);
    let answers = [
        store.change(to(block, 0), IntType::INT, Change::Swap, int(8)),
        store.change(to(block, 0), IntType::INT, Change::Add, int(2147483647)),
        store.change(to(block, 0), IntType::INT, Change::Swap, int(9)),
        store.change(to(block, 0), IntType::INT, Change::Add, int(-1)),
        store.change(to(unknown, 0), IntType::INT, Change::Add, int(1)),
        store.change(to(unknown, 0), IntType::INT, Change::Swap, int(1)),
        store.change(to(literal, 0), IntType::INT, Change::Add, int(1)),
        store.change(Ptr::Null, IntType::INT, Change::Add, int(1)),
    ];
    let wanted = [
        Ok(int(0)),
        Ok(int(8)),
        Ok(int(-2147483641)),
        Ok(int(9)),
        Err(Rule::C4),
        Err(Rule::C4),
        Err(Rule::C12),
        Err(Rule::C5),
    ];
    assert_eq!(rt; answers, wanted);
    check_loads(
        &rt,
        &store,
        &[(to(block, 0), INT, Ok(number(IntType::INT, 8)))],
    );
    Ok(())
}

// The wanted number becomes the one that was found; the next comparison finds it, and the new one is stored.
#[test]
fn numbers_are_compared(rt: HostRuntime) -> Result<(), Fail> {
    let mut store = Store::new(rt.alloc());
    let block = store.make(4, BlockKind::Global, Cell::Byte(0))?;
    let want = store.make(4, BlockKind::Heap, Cell::Byte(1))?;
    let nine = Num::wrapping(IntType::INT, 9);
    let answers = [
        store.compare(to(block, 0), to(want, 0), IntType::INT, nine),
        store.compare(to(block, 0), to(want, 0), IntType::INT, nine),
        store.compare(to(block, 0), to(want, 1), IntType::INT, nine),
    ];
    assert_eq!(rt; answers, [Ok(false), Ok(true), Err(Rule::C5)]);
    let rows = [
        (to(block, 0), INT, Ok(number(IntType::INT, 9))),
        (to(want, 0), INT, Ok(number(IntType::INT, 0))),
    ];
    check_loads(&rt, &store, &rows);
    Ok(())
}
