//! Copies of what a typed tree holds beside its own nodes: types, and the pieces of formats.

ghost use Rattle.std.specs.Prelude.{◌≡◌, IfOk, map};
ghost use Rattle.c_tree.specs.TypedViews.{type_view, piece_view};

use crate::typed::{CType, Piece};
use std::alloc::{AllocError, Global};

/// The same type once more.
///
/// # Errors
///
/// Only want of memory.
pub fn copy_type(alloc: Global, t: &CType) -> Result<CType, AllocError>
    ensures { IfOk result (λ copy. type_view copy ≡ type_view t.now) }
{
    match t {
        CType::Void => Ok(CType::Void),
        CType::Int(t) => Ok(CType::Int(*t)),
        CType::Atomic(t) => Ok(CType::Atomic(*t)),
        CType::Mutex => Ok(CType::Mutex),
        CType::Pointer(t) => {
            let target = copy_type(alloc, t)?;
            Ok(CType::Pointer(Box::new(alloc, target)?))
        }
        CType::Array(t, n) => {
            let element = copy_type(alloc, t)?;
            Ok(CType::Array(Box::new(alloc, element)?, *n))
        }
        CType::Struct(n) => Ok(CType::Struct(*n)),
    }
}

// The same piece once more.
fn copy_piece(alloc: Global, piece: &Piece) -> Result<Piece, AllocError>
    ensures { IfOk result (λ copy. piece_view copy ≡ piece_view piece.now) }
{
    match piece {
        Piece::Bytes(bytes) => Ok(Piece::Bytes(bytes.to_vec(alloc)?)),
        Piece::Signed(bits) => Ok(Piece::Signed(*bits)),
        Piece::Unsigned(bits) => Ok(Piece::Unsigned(*bits)),
        Piece::Hex(bits) => Ok(Piece::Hex(*bits)),
        Piece::Char => Ok(Piece::Char),
        Piece::Text => Ok(Piece::Text),
    }
}

/// The same pieces once more, in their order.
///
/// # Errors
///
/// Only want of memory.
pub fn copy_pieces(alloc: Global, pieces: &[Piece]) -> Result<Vec<Piece>, AllocError>
    ensures { IfOk result (λ copies. map piece_view copies.items ≡ map piece_view pieces.now) }
{
    let mut copies = Vec::new(alloc);
    'each: for piece in pieces {
        copies.push(copy_piece(alloc, piece)?)?;
    }
    Ok(copies)
}
