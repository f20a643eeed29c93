//! Writing actions, with their places.

ghost use Rattle.std.specs.Prelude.{◌≡◌, ◌&&◌, true, map, OnOk};
ghost use Rattle.std.specs.List.{list_all};
ghost use Rattle.c_tree.specs.TypedViews.{piece_view};
ghost use Rattle.struct_ir.specs.Valid.{is_piece};
ghost use Rattle.struct_ir.specs.Views.{place_view, action_view, step_view};
ghost use Rattle.formats.specs.Formats.{◌▸◌, byte, list, u32};
ghost use Rattle.code_file.specs.Numbers.{flag, int_type};
ghost use Rattle.code_file.specs.Actions as formats;
ghost use Rattle.code_file.specs.Actions.{slot_of, piece_number, piece_fields, piece_parts, change_number, change_way, action_number, action_fields, action_parts};
ghost use Rattle.code_save.specs.inner.Fits.{place_fits, action_fits, step_fits};
ghost use Rattle.code_save.specs.inner.Written.{Wrote};

use crate::numbers::{
    put_access, put_count, put_flag, put_option, put_piece_bits, put_type, put_u32, put_u64,
};
use crate::output::Output;
use ak_words::{IntType, NoMemory};
use block_store::Change;
use c_tree::typed::Piece;
use struct_ir::code::{Action, Place, StepNode};

/// The slot of a place, which has one.
fn slot_of(slot: Option<u32>) -> u32
    ensures { result ≡ slot_of slot }
{
    slot.unwrap_or(0)
}

/// Where an access goes.
fn put_place(out: &mut Output, place: &Place) -> Result<(), NoMemory>
    ensures { OnOk result (Wrote formats.place (place_view place.now) (place_fits (place_view place.now)) out.old out.new) }
{
    put_u32(out, place.base)?;
    put_option(out, place.index)?;
    put_u32(out, place.scale)?;
    put_u64(out, place.offset)?;
    put_u32(out, slot_of(place.slot))
}

/// A list of bytes.
pub fn put_text(out: &mut Output, text: &[u8]) -> Result<(), NoMemory>
    ensures { OnOk result (Wrote (list byte) text.now true out.old out.new) }
{
    put_count(out, text.len())?;
    out.put(text)
}

/// A list of numbers.
pub fn put_numbers(out: &mut Output, numbers: &[u32]) -> Result<(), NoMemory>
    ensures { OnOk result (Wrote (list u32) numbers.now true out.old out.new) }
{
    put_count(out, numbers.len())?;
    for n in numbers {
        put_u32(out, *n)?;
    }
    Ok(())
}

/// A list of places.
fn put_places(out: &mut Output, places: &[Place]) -> Result<(), NoMemory>
    ensures { OnOk result (Wrote (list formats.place) (map place_view places.now) (list_all place_fits (map place_view places.now)) out.old out.new) }
{
    put_count(out, places.len())?;
    for place in places {
        put_place(out, place)?;
    }
    Ok(())
}

/// The tag of a piece.
fn piece_tag(piece: &Piece) -> u8
    ensures { result ≡ piece_number (piece_parts (piece_view piece.now)).0 }
{
    match piece {
        Piece::Bytes(_) => 0,
        Piece::Signed(_) => 1,
        Piece::Unsigned(_) => 2,
        Piece::Hex(_) => 3,
        Piece::Char => 4,
        Piece::Text => 5,
    }
}

/// What stands behind the tag of a piece.
fn put_piece_fields(out: &mut Output, piece: &Piece) -> Result<(), NoMemory>
    ensures { OnOk result (Wrote (piece_fields (piece_parts (piece_view piece.now)).0) (piece_parts (piece_view piece.now)).1 (is_piece (piece_view piece.now)) out.old out.new) }
{
    match piece {
        Piece::Bytes(text) => put_text(out, text),
        Piece::Signed(bits) => put_piece_bits(out, *bits),
        Piece::Unsigned(bits) => put_piece_bits(out, *bits),
        Piece::Hex(bits) => put_piece_bits(out, *bits),
        Piece::Char => Ok(()),
        Piece::Text => Ok(()),
    }
}

/// A piece of a format.
fn put_piece(out: &mut Output, piece: &Piece) -> Result<(), NoMemory>
    ensures { OnOk result (Wrote formats.piece (piece_view piece.now) (is_piece (piece_view piece.now)) out.old out.new) }
{
    out.put(&[piece_tag(piece)])?;
    put_piece_fields(out, piece)
}

/// A list of pieces.
fn put_pieces(out: &mut Output, pieces: &[Piece]) -> Result<(), NoMemory>
    ensures { OnOk result (Wrote (list formats.piece) (map piece_view pieces.now) (list_all is_piece (map piece_view pieces.now)) out.old out.new) }
{
    put_count(out, pieces.len())?;
    for piece in pieces {
        put_piece(out, piece)?;
    }
    Ok(())
}

/// The number of a change.
fn change_number(how: Change) -> u8
    ensures { result ≡ change_number how }
{
    match how {
        Change::Add => 0,
        Change::Swap => 1,
    }
}

/// The alignment of a copy, and whether it may be onto itself.
fn put_copy(out: &mut Output, align: u32, same: bool) -> Result<(), NoMemory>
    ensures { OnOk result (Wrote (u32 ▸ flag) (align, same) true out.old out.new) }
{
    put_u32(out, align)?;
    put_flag(out, same)
}

/// How a number is changed.
fn put_way(out: &mut Output, how: Change) -> Result<(), NoMemory>
    ensures { OnOk result (Wrote change_way how true out.old out.new) }
{
    out.put(&[change_number(how)])
}

/// A change, and the type of the number.
fn put_change(out: &mut Output, how: Change, ty: IntType) -> Result<(), NoMemory>
    ensures { OnOk result (Wrote (change_way ▸ int_type) (how, ty) true out.old out.new) }
{
    put_way(out, how)?;
    put_type(out, ty)
}

/// The tag of an action.
fn action_tag(action: &Action) -> u8
    ensures { result ≡ action_number (action_parts (action_view action.now)).0 }
{
    match action {
        Action::Load(_) => 0,
        Action::Store(_) => 1,
        Action::Copy { .. } => 2,
        Action::Malloc => 3,
        Action::Free => 4,
        Action::Print(_) => 5,
        Action::Lock => 6,
        Action::Unlock => 7,
        Action::Destroy => 8,
        Action::Start(_) => 9,
        Action::Join => 10,
        Action::Calloc => 11,
        Action::Realloc => 12,
        Action::Change(_, _) => 13,
        Action::Compare(_) => 14,
    }
}

/// What stands behind the tag of an action.
fn put_action_fields(out: &mut Output, action: &Action) -> Result<(), NoMemory>
    ensures { OnOk result (Wrote (action_fields (action_parts (action_view action.now)).0) (action_parts (action_view action.now)).1 (action_fits (action_view action.now)) out.old out.new) }
{
    match action {
        Action::Load(how) => put_access(out, *how),
        Action::Store(how) => put_access(out, *how),
        Action::Copy { align, same } => put_copy(out, *align, *same),
        Action::Print(pieces) => put_pieces(out, pieces),
        Action::Start(function) => put_u32(out, *function),
        Action::Change(how, ty) => put_change(out, *how, *ty),
        Action::Compare(ty) => put_type(out, *ty),
        Action::Malloc => Ok(()),
        Action::Free => Ok(()),
        Action::Lock => Ok(()),
        Action::Unlock => Ok(()),
        Action::Destroy => Ok(()),
        Action::Join => Ok(()),
        Action::Calloc => Ok(()),
        Action::Realloc => Ok(()),
    }
}

/// An action.
fn put_action(out: &mut Output, action: &Action) -> Result<(), NoMemory>
    ensures { OnOk result (Wrote formats.action (action_view action.now) (action_fits (action_view action.now)) out.old out.new) }
{
    out.put(&[action_tag(action)])?;
    put_action_fields(out, action)
}

/// One action, with what it reads and sets.
pub fn put_step(out: &mut Output, step: &StepNode) -> Result<(), NoMemory>
    ensures { OnOk result (Wrote formats.step (step_view step.now) (step_fits (step_view step.now)) out.old out.new) }
{
    put_action(out, &step.action)?;
    put_places(out, &step.places)?;
    put_option(out, step.to)?;
    put_numbers(out, &step.temps)?;
    put_numbers(out, &step.slots)
}
