//! Reading actions, with their places.

ghost use Rattle.std.specs.Prelude.{◌≡◌, ◌<◌, map};
ghost use Rattle.block_store.specs.declared.values.Change.TheVariants as changes;
ghost use Rattle.c_tree.specs.TypedViews.{piece_view};
ghost use Rattle.struct_ir.specs.Views.{place_view, action_view, step_view};
ghost use Rattle.formats.specs.Formats.{at_number, behind_tag, byte, list, u32};
ghost use Rattle.code_file.specs.inner.Gives.{Gives};
ghost use Rattle.code_file.specs.Actions as actions;
ghost use Rattle.code_file.specs.Actions.{place, other_pieces, piece_fields, make_piece, piece, change_way, other_actions, action_fields, make_action, action, step};

use crate::fault::Fault;
use crate::numbers::{
    access_at, flag_at, option_at, piece_bits_at, tag_at, type_at, u32_at, u64_at,
};
use block_store::Change;
use c_tree::typed::Piece;
use smallvec::SmallVec;
use std::alloc::Global;
use struct_ir::code::{Action, Numbers, Place, Places, StepNode};

/// Where an access goes.
#[tactic(auto, unfolding(crate::specs::Actions::place))]
pub fn place_at(bytes: &[u8]) -> Result<(Place, &[u8]), Fault>
    ensures { Gives (λ x. (place_view x.0, x.1.now)) result (place.read bytes.now) }
{
    let (base, rest) = u32_at(bytes)?;
    let (index, rest) = option_at(rest)?;
    let (scale, rest) = u32_at(rest)?;
    let (offset, rest) = u64_at(rest)?;
    let (slot, rest) = u32_at(rest)?;
    let place = Place {
        base,
        index,
        scale,
        offset,
        slot: Some(slot),
    };
    Ok((place, rest))
}

/// A list of bytes.
pub fn text_at(alloc: Global, bytes: &[u8]) -> Result<(Vec<u8>, &[u8]), Fault>
    ensures { Gives (λ x. (x.0.items, x.1.now)) result ((list byte).read bytes.now) }
{
    let (count, rest) = u32_at(bytes)?;
    let count = count as usize;
    if rest.len() < count {
        return Err(Fault::Bad(0));
    }
    let (text, rest) = rest.split_at(count);
    Ok((Vec::from_slice(alloc, text)?, rest))
}

/// A list of numbers.
pub fn numbers_at(alloc: Global, bytes: &[u8]) -> Result<(Vec<u32>, &[u8]), Fault>
    ensures { Gives (λ x. (x.0.items, x.1.now)) result ((list u32).read bytes.now) }
{
    let (count, begin) = u32_at(bytes)?;
    let mut numbers = Vec::new(alloc);
    let mut rest = begin;
    for _ in 0..count {
        let (number, after) = u32_at(rest)?;
        numbers.push(number)?;
        rest = after;
    }
    Ok((numbers, rest))
}

/// A list of numbers, of which most have few.
pub fn few_numbers_at(alloc: Global, bytes: &[u8]) -> Result<(Numbers, &[u8]), Fault>
    ensures { Gives (λ x. (x.0.items, x.1.now)) result ((list u32).read bytes.now) }
{
    let (count, begin) = u32_at(bytes)?;
    let mut numbers = SmallVec::new(alloc);
    let mut rest = begin;
    for _ in 0..count {
        let (number, after) = u32_at(rest)?;
        numbers.push(number)?;
        rest = after;
    }
    Ok((numbers, rest))
}

/// A list of places.
pub fn places_at(alloc: Global, bytes: &[u8]) -> Result<(Places, &[u8]), Fault>
    ensures { Gives (λ x. (map place_view x.0.items, x.1.now)) result ((list place).read bytes.now) }
{
    let (count, begin) = u32_at(bytes)?;
    let mut places = SmallVec::new(alloc);
    let mut rest = begin;
    for _ in 0..count {
        let (one, after) = place_at(rest)?;
        places.push(one)?;
        rest = after;
    }
    Ok((places, rest))
}

/// Bytes as they stand.
fn bytes_at(alloc: Global, bytes: &[u8]) -> Result<(Piece, &[u8]), Fault>
    ensures { Gives (λ x. (piece_view x.0, x.1.now)) result (behind_tag piece_fields make_piece actions.bytes bytes.now) }
{
    let (text, rest) = text_at(alloc, bytes)?;
    Ok((Piece::Bytes(text), rest))
}

/// A signed number in decimal.
fn signed_at(bytes: &[u8]) -> Result<(Piece, &[u8]), Fault>
    ensures { Gives (λ x. (piece_view x.0, x.1.now)) result (behind_tag piece_fields make_piece actions.signed bytes.now) }
{
    let (bits, rest) = piece_bits_at(bytes)?;
    Ok((Piece::Signed(bits), rest))
}

/// An unsigned number in decimal.
fn unsigned_at(bytes: &[u8]) -> Result<(Piece, &[u8]), Fault>
    ensures { Gives (λ x. (piece_view x.0, x.1.now)) result (behind_tag piece_fields make_piece actions.unsigned bytes.now) }
{
    let (bits, rest) = piece_bits_at(bytes)?;
    Ok((Piece::Unsigned(bits), rest))
}

/// A number in hexadecimal.
fn hexadecimal_at(bytes: &[u8]) -> Result<(Piece, &[u8]), Fault>
    ensures { Gives (λ x. (piece_view x.0, x.1.now)) result (behind_tag piece_fields make_piece actions.hexadecimal bytes.now) }
{
    let (bits, rest) = piece_bits_at(bytes)?;
    Ok((Piece::Hex(bits), rest))
}

/// The piece behind a tag of this number.
fn piece_of(alloc: Global, tag: u8, bytes: &[u8]) -> Result<(Piece, &[u8]), Fault>
    requires { tag < 6 }
    ensures { Gives (λ x. (piece_view x.0, x.1.now)) result (behind_tag piece_fields make_piece (at_number actions.bytes other_pieces tag) bytes.now) }
{
    match tag {
        0 => bytes_at(alloc, bytes),
        1 => signed_at(bytes),
        2 => unsigned_at(bytes),
        3 => hexadecimal_at(bytes),
        4 => Ok((Piece::Char, bytes)),
        _ => Ok((Piece::Text, bytes)),
    }
}

/// A piece of a format.
#[tactic(auto, using(crate::proofs::Tagged::piece_read, crate::proofs::Tagged::piece_not_read))]
pub fn piece_at(alloc: Global, bytes: &[u8]) -> Result<(Piece, &[u8]), Fault>
    ensures { Gives (λ x. (piece_view x.0, x.1.now)) result (piece.read bytes.now) }
{
    let (tag, rest) = tag_at(6, bytes)?;
    piece_of(alloc, tag, rest)
}

/// A list of pieces.
pub fn pieces_at(alloc: Global, bytes: &[u8]) -> Result<(Vec<Piece>, &[u8]), Fault>
    ensures { Gives (λ x. (map piece_view x.0.items, x.1.now)) result ((list piece).read bytes.now) }
{
    let (count, begin) = u32_at(bytes)?;
    let mut pieces = Vec::new(alloc);
    let mut rest = begin;
    for _ in 0..count {
        let (one, after) = piece_at(alloc, rest)?;
        pieces.push(one)?;
        rest = after;
    }
    Ok((pieces, rest))
}

/// How a number is changed.
#[tactic(auto, unfolding(crate::specs::Actions::change_way))]
pub fn change_at(bytes: &[u8]) -> Result<(Change, &[u8]), Fault>
    ensures { Gives (λ x. (x.0, x.1.now)) result (change_way.read bytes.now) }
{
    match bytes {
        [0, rest @ ..] => Ok((Change::Add, rest)),
        [1, rest @ ..] => Ok((Change::Swap, rest)),
        _ => Err(Fault::Bad(bytes.len())),
    }
}

/// A load.
fn load_at(bytes: &[u8]) -> Result<(Action, &[u8]), Fault>
    ensures { Gives (λ x. (action_view x.0, x.1.now)) result (behind_tag action_fields make_action actions.load bytes.now) }
{
    let (how, rest) = access_at(bytes)?;
    Ok((Action::Load(how), rest))
}

/// A store.
fn store_at(bytes: &[u8]) -> Result<(Action, &[u8]), Fault>
    ensures { Gives (λ x. (action_view x.0, x.1.now)) result (behind_tag action_fields make_action actions.store bytes.now) }
{
    let (how, rest) = access_at(bytes)?;
    Ok((Action::Store(how), rest))
}

/// A copy.
fn copy_at(bytes: &[u8]) -> Result<(Action, &[u8]), Fault>
    ensures { Gives (λ x. (action_view x.0, x.1.now)) result (behind_tag action_fields make_action actions.copy bytes.now) }
{
    let (align, rest) = u32_at(bytes)?;
    let (same, rest) = flag_at(rest)?;
    Ok((Action::Copy { align, same }, rest))
}

/// A print.
fn print_at(alloc: Global, bytes: &[u8]) -> Result<(Action, &[u8]), Fault>
    ensures { Gives (λ x. (action_view x.0, x.1.now)) result (behind_tag action_fields make_action actions.print bytes.now) }
{
    let (pieces, rest) = pieces_at(alloc, bytes)?;
    Ok((Action::Print(pieces), rest))
}

/// A new thread.
fn start_at(bytes: &[u8]) -> Result<(Action, &[u8]), Fault>
    ensures { Gives (λ x. (action_view x.0, x.1.now)) result (behind_tag action_fields make_action actions.start bytes.now) }
{
    let (function, rest) = u32_at(bytes)?;
    Ok((Action::Start(function), rest))
}

/// A change.
fn change_of_at(bytes: &[u8]) -> Result<(Action, &[u8]), Fault>
    ensures { Gives (λ x. (action_view x.0, x.1.now)) result (behind_tag action_fields make_action actions.change bytes.now) }
{
    let (how, rest) = change_at(bytes)?;
    let (ty, rest) = type_at(rest)?;
    Ok((Action::Change(how, ty), rest))
}

/// A compare.
fn compare_at(bytes: &[u8]) -> Result<(Action, &[u8]), Fault>
    ensures { Gives (λ x. (action_view x.0, x.1.now)) result (behind_tag action_fields make_action actions.compare bytes.now) }
{
    let (ty, rest) = type_at(bytes)?;
    Ok((Action::Compare(ty), rest))
}

/// The action behind a tag of this number.
fn action_of(alloc: Global, tag: u8, bytes: &[u8]) -> Result<(Action, &[u8]), Fault>
    requires { tag < 15 }
    ensures { Gives (λ x. (action_view x.0, x.1.now)) result (behind_tag action_fields make_action (at_number actions.load other_actions tag) bytes.now) }
{
    match tag {
        0 => load_at(bytes),
        1 => store_at(bytes),
        2 => copy_at(bytes),
        3 => Ok((Action::Malloc, bytes)),
        4 => Ok((Action::Free, bytes)),
        5 => print_at(alloc, bytes),
        6 => Ok((Action::Lock, bytes)),
        7 => Ok((Action::Unlock, bytes)),
        8 => Ok((Action::Destroy, bytes)),
        9 => start_at(bytes),
        10 => Ok((Action::Join, bytes)),
        11 => Ok((Action::Calloc, bytes)),
        12 => Ok((Action::Realloc, bytes)),
        13 => change_of_at(bytes),
        _ => compare_at(bytes),
    }
}

/// An action.
#[tactic(auto, using(crate::proofs::Tagged::action_read, crate::proofs::Tagged::action_not_read))]
pub fn action_at(alloc: Global, bytes: &[u8]) -> Result<(Action, &[u8]), Fault>
    ensures { Gives (λ x. (action_view x.0, x.1.now)) result (action.read bytes.now) }
{
    let (tag, rest) = tag_at(15, bytes)?;
    action_of(alloc, tag, rest)
}

/// One action, with what it reads and sets.
#[tactic(auto, unfolding(crate::specs::Actions::step))]
pub fn step_at(alloc: Global, bytes: &[u8]) -> Result<(StepNode, &[u8]), Fault>
    ensures { Gives (λ x. (step_view x.0, x.1.now)) result (step.read bytes.now) }
{
    let (action, rest) = action_at(alloc, bytes)?;
    let (places, rest) = places_at(alloc, rest)?;
    let (to, rest) = option_at(rest)?;
    let (temps, rest) = few_numbers_at(alloc, rest)?;
    let (slots, rest) = few_numbers_at(alloc, rest)?;
    let node = StepNode {
        action,
        places,
        to,
        temps,
        slots,
    };
    Ok((node, rest))
}
