ghost use Rattle.std.specs.Prelude.{◌≡◌};
ghost use Rattle.handle_table.specs.Frame.{HasSlot, slot_at};
ghost use Rattle.handle_table.specs.Table.{translated};

use ak_words::NoMemory;
use handle_table::{PinFrame, PinWords, Table, unite};
use handle_words::make;
use std::alloc::Global;
use std::test::Fail;

// Which of the ids 0 to 3 are in use.
fn in_use(table: &Table) -> [bool; 4] {
    [
        table.in_use(0),
        table.in_use(1),
        table.in_use(2),
        table.in_use(3),
    ]
}

// Frees an id if it is in use.
fn give_if_used(table: &mut Table, id: u32) {
    if table.in_use(id) {
        table.give(id);
    }
}

// Sets the address of an id if it is in use.
fn set_if_used(table: &mut Table, id: u32, at: u64) {
    if table.in_use(id) {
        table.set(id, at);
    }
}

#[test]
fn takes_the_least_free_ids(rt: HostRuntime) -> Result<(), Fail> {
    let mut table = Table::new(rt.alloc(), 3)?;
    let before = in_use(&table);
    let taken = [table.take(), table.take(), table.take(), table.take()];
    let full = in_use(&table);
    assert_eq!(rt; taken, [Some(0), Some(1), Some(2), None]);
    give_if_used(&mut table, 1);
    give_if_used(&mut table, 0);
    let given = in_use(&table);
    let taken = [table.take(), table.take(), table.take()];
    assert_eq!(rt; taken, [Some(0), Some(1), None]);
    let wanted = [
        [false; 4],
        [true, true, true, false],
        [false, false, true, false],
    ];
    assert_eq!(rt; [before, full, given], wanted);
    Ok(())
}

#[test]
fn translates_words(rt: HostRuntime) -> Result<(), Fail> {
    let mut table = Table::new(rt.alloc(), 6)?;
    let taken = table.take();
    let before = table.look(make(0, 12));
    set_if_used(&mut table, 0, 4096);
    let looked = [
        table.look(make(0, 0)),
        table.look(make(0, 12)),
        table.look(make(1, 12)),
        table.look(make(6, 12)),
        table.look(12),
    ];
    set_if_used(&mut table, 0, u64::MAX);
    let past = table.look(make(0, 12));
    assert_eq!(rt; (taken, before, past), (Some(0), 12, 11));
    assert_eq!(rt; looked, [4096, 4108, 0, 0, 12]);
    Ok(())
}

// What the machine does at a look: the slot then holds the word and what the table translates it to.
fn look_into(table: &Table, frame: &mut PinFrame, slot: u32, word: u64)
    requires { HasSlot frame.old slot }
    ensures word { (slot_at frame.new slot).word ≡ word }
    ensures address { (slot_at frame.new slot).address ≡ translated table.now word }
{
    frame.set(slot, word, table.look(word));
}

// A table of one id, which stands for an address.
fn table_of_one(alloc: Global) -> Result<Table, NoMemory> {
    let mut table = Table::new(alloc, 1)?;
    table.take();
    set_if_used(&mut table, 0, 4096);
    Ok(table)
}

#[test]
fn looks_through_a_slot(rt: HostRuntime) -> Result<(), Fail> {
    let table = table_of_one(rt.alloc())?;
    let mut frame = PinFrame::with_slots(rt.alloc(), 1)?;
    let before = [frame.word(0), frame.address(0)];
    look_into(&table, &mut frame, 0, make(0, 8));
    let after = [frame.word(0), frame.address(0)];
    assert_eq!(rt; [before, after], [[0, 0], [make(0, 8), 4104]]);
    Ok(())
}

#[test]
fn takes_the_handles_of_the_listed_slots(rt: HostRuntime) -> Result<(), Fail> {
    let mut words = PinWords::with_room(rt.alloc(), 3)?;
    let mut frame = PinFrame::with_slots(rt.alloc(), 5)?;
    frame.set(1, make(7, 0), 4096);
    frame.set(2, make(0, 8), 4104);
    frame.set(3, 4096, 4096);
    frame.set(4, make(0, 0), 4096);
    unite(&frame, 2, [0, 1, 2].as_slice(), &mut words);
    let read = [words.get(0), words.get(1), words.get(2)];
    let number = words.len();
    words.clear();
    let wanted = [Some(make(0, 8)), Some(make(0, 0)), None];
    assert_eq!(rt; (read, number, words.len()), (wanted, 2, 0));
    Ok(())
}
