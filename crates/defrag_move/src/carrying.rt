ghost use Rattle.std.specs.Prelude.{◌≡◌, ◌+◌, ◌^◌, ◌<◌, length, Some, slice_set};
ghost use Rattle.handle_table.specs.Table.{IsInUse};
ghost use Rattle.flat_store.specs.Flat.{HasBytes, bytes_from, with_bytes};
ghost use Rattle.defrag_move.specs.inner.Carrying.{CanCarry, addresses_after, bytes_after};

use flat_store::Flat;
use handle_table::Table;
use move_plan::Move;

/// Has the objects of moves take their bytes along, in the moves' order, and gives the ids that own them their
/// new addresses.
pub fn carry_all(table: &mut Table, bytes: &mut Flat, start: u64, moves: &[Move], owners: &[u32])
    requires as_many { length owners.now ≡ length moves.now }
    requires can { CanCarry start moves.now owners.now table.old bytes.old }
    ensures table { table.new ≡ addresses_after start moves.now owners.now table.old }
    ensures bytes { bytes.new ≡ bytes_after start moves.now bytes.old }
{
    for (i, next) in moves.iter().enumerate() {
        carry(table, bytes, start, *next, owners[i]);
    }
}

// Has the object of a move take its bytes along, and gives the id that owns it the address where it goes.
fn carry(table: &mut Table, bytes: &mut Flat, start: u64, next: Move, owner: u32)
    requires in_use { IsInUse table.old owner }
    requires small_from { start + next.from < 2 ^ 64 }
    requires small_to { start + next.to < 2 ^ 64 }
    requires from { HasBytes bytes.old (start + next.from) next.size }
    requires to { HasBytes bytes.old (start + next.to) next.size }
    ensures table { table.new ≡ slice_set table.old owner (Some (start + next.to)) }
    ensures bytes { bytes.new ≡ with_bytes bytes.old (start + next.to) (bytes_from bytes.old (start + next.from) next.size) }
{
    let target = start + u64::from(next.to);
    let source = start + u64::from(next.from);
    table.set(owner, target);
    match bytes.copy(target, source, u64::from(next.size)) {
        Ok(()) => {}
        Err(_) => unreachable!(),
    }
}
