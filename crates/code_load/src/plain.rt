//! Whether globals and literals fit the area of plain data.

ghost use Rattle.std.specs.Prelude.{◌≡◌, ◌≤◌, ◌<◌, map, length, nat_le, sum_by};
ghost use Rattle.c_tree.specs.TypedForm.{taken};
ghost use Rattle.c_tree.specs.TypedViews.{literal_view};
ghost use Rattle.struct_ir.specs.Views.{global_view};
ghost use Rattle.struct_ir.specs.Whole.{plain_bytes};
ghost use Rattle.code_load.specs.inner.Rooms.{without};

use c_tree::typed::Literal;
use struct_ir::IrGlobal;

const MOST_PLAIN_BYTES: usize = 1_048_576;

// The room that is left behind an object of this size and its padding.
fn room_behind(room: usize, size: usize) -> Option<usize>
    requires { room ≤ 1048576 }
    ensures { result ≡ without room (taken size) }
{
    if size >= room {
        return None;
    }
    room.checked_sub(16 * (size / 16 + 1))
}

// The room that is left behind the globals.
fn behind_globals(globals: &[IrGlobal], room: usize) -> Option<usize>
    requires { room ≤ 1048576 }
    ensures { result ≡ without room (sum_by (λ g. taken g.size) (map global_view globals.now)) }
{
    let mut left = room;
    for global in globals {
        left = room_behind(left, global.size as usize)?;
    }
    Some(left)
}

// The room that is left behind the literals.
fn behind_literals(literals: &[Literal], room: usize) -> Option<usize>
    requires { room ≤ 1048576 }
    ensures { result ≡ without room (sum_by (λ bs. taken (length bs)) (map literal_view literals.now)) }
{
    let mut left = room;
    for literal in literals {
        left = room_behind(left, literal.bytes.len())?;
    }
    Some(left)
}

/// Whether globals and literals, with their padding, fit the area of plain data.
pub fn fits(globals: &[IrGlobal], literals: &[Literal]) -> bool
    ensures { result ≡ nat_le (plain_bytes (map global_view globals.now) (map literal_view literals.now)) 1048576 }
{
    match behind_globals(globals, MOST_PLAIN_BYTES) {
        Some(room) => behind_literals(literals, room).is_some(),
        None => false,
    }
}
