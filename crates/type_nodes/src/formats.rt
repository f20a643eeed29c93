//! The formats of printf (C11 7.21.6.1).
ghost use Rattle.std.specs.Prelude.{◌≡◌, ◌∷◌, ◌<◌, ◌≢◌, [], List, map, drop, length, nat_eq, slice_index, false, OnOk, IfOk, IfErr};
ghost use Rattle.std.specs.List.{find, starts_with};
ghost use Rattle.std.specs.Option.{option_map};
ghost use Rattle.c_tree.specs.Typed as trees;
ghost use Rattle.c_tree.specs.TypedViews.{type_view, piece_view, expr_view, boxed_expr_view};
ghost use Rattle.c_typing.specs.Faults.{Gives, Fails};
ghost use Rattle.c_typing.specs.Rules.{or_mismatch};
ghost use Rattle.c_typing.specs.Formats.{Conversion, before_pieces, conversion_at, pieces_from, pieces_of, number_for, text_for, argument_for, arguments_for};
ghost use Rattle.c_typing.specs.Judgement.{format_by, printed};
ghost use Rattle.type_context.specs.Telling.{Says};
ghost use Rattle.type_rules.specs.ListViews.{exprs_view, pieces_view};
ghost use Rattle.type_nodes.specs.inner.Formatting.{spelled_view, row_view, measured, found_view, is_bytes, so_far};

use ak_words::{IntType, promote};
use c_lex::{CompileFault, Kind, Refusal};
use c_tree::typed::{CType, Expr, Lib, Piece};
use std::alloc::{AllocError, Global};
use std::mem;
use type_context::faults::{as_fault, refused};
use type_rules::calls::library_call;
use type_rules::conversions::converted;

/// What a conversion writes.
#[derive(Clone, Copy, Debug)]
enum Spelled {
    Signed(u8),
    Unsigned(u8),
    Hex(u8),
    Char,
    Text,
    Percent,
}

/// The conversions: how each is spelled, and what it writes.
const CONVERSIONS: [(&[u8], Spelled); 19] = [
    (b"%d", Spelled::Signed(32)),
    (b"%i", Spelled::Signed(32)),
    (b"%u", Spelled::Unsigned(32)),
    (b"%x", Spelled::Hex(32)),
    (b"%ld", Spelled::Signed(64)),
    (b"%li", Spelled::Signed(64)),
    (b"%lu", Spelled::Unsigned(64)),
    (b"%lx", Spelled::Hex(64)),
    (b"%lld", Spelled::Signed(64)),
    (b"%lli", Spelled::Signed(64)),
    (b"%llu", Spelled::Unsigned(64)),
    (b"%llx", Spelled::Hex(64)),
    (b"%zd", Spelled::Signed(64)),
    (b"%zi", Spelled::Signed(64)),
    (b"%zu", Spelled::Unsigned(64)),
    (b"%zx", Spelled::Hex(64)),
    (b"%c", Spelled::Char),
    (b"%s", Spelled::Text),
    (b"%%", Spelled::Percent),
];

/// The pieces of a format so far: those that are done, and the bytes behind them.
#[derive(Drop)]
struct Pieces {
    alloc: Global,
    done: Vec<Piece>,
    run: Vec<u8>,
}

// The conversion among these that the bytes begin with, and how long it is.
fn conversion_among(rows: &[(&[u8], Spelled)], bytes: &[u8]) -> Option<(usize, Spelled)>
    ensures { option_map found_view result ≡ option_map measured (find (λ (x : Conversion). starts_with nat_eq bytes.now x.0) (map row_view rows.now)) }
{
    match rows {
        [] => None,
        [(spelling, spelled), rest @ ..] => {
            if bytes.starts_with(spelling) {
                Some((spelling.len(), *spelled))
            } else {
                conversion_among(rest, bytes)
            }
        }
    }
}

// The conversion that the bytes begin with, and how long it is.
#[tactic(auto, unfolding(c_typing::specs::Formats::conversions))]
fn conversion_at(bytes: &[u8]) -> Option<(usize, Spelled)>
    ensures { option_map found_view result ≡ option_map measured (conversion_at bytes.now) }
{
    conversion_among(&CONVERSIONS, bytes)
}

impl Pieces {
    fn new(alloc: Global) -> Pieces
        ensures { (rest : List trees.Piece) → so_far result rest ≡ rest }
    {
        Pieces {
            alloc,
            done: Vec::new(alloc),
            run: Vec::new(alloc),
        }
    }

    // One byte more.
    #[tactic(auto, using(crate::proofs::Formatting::so_far_byte))]
    fn push_byte(&mut self, byte: u8) -> Result<(), AllocError>
        ensures { OnOk result ((rest : List trees.Piece) → so_far self.new rest ≡ so_far self.old (before_pieces (trees.bytes (byte ∷ [])) rest)) }
    {
        self.run.push(byte)?;
        Ok(())
    }

    // The bytes become a piece.
    fn flush(&mut self) -> Result<(), AllocError>
        ensures done { OnOk result (pieces_view self.new.done ≡ so_far self.old []) }
        ensures run { OnOk result (self.new.run.items ≡ []) }
    {
        if !self.run.is_empty() {
            let run = mem::replace(&mut self.run, Vec::new(self.alloc));
            self.done.push(Piece::Bytes(run))?;
        }
        Ok(())
    }

    // One piece more, which is none of bytes.
    #[tactic(auto, using(crate::proofs::Formatting::so_far_piece))]
    fn push_piece(&mut self, piece: Piece) -> Result<(), AllocError>
        requires { is_bytes (piece_view piece) ≡ false }
        ensures { OnOk result ((rest : List trees.Piece) → so_far self.new rest ≡ so_far self.old (piece_view piece ∷ rest)) }
    {
        self.flush()?;
        self.done.push(piece)?;
        Ok(())
    }

    // One conversion more.
    fn push(&mut self, spelled: Spelled) -> Result<(), AllocError>
        ensures { OnOk result ((rest : List trees.Piece) → so_far self.new rest ≡ so_far self.old (before_pieces (spelled_view spelled) rest)) }
    {
        match spelled {
            Spelled::Signed(bits) => self.push_piece(Piece::Signed(bits)),
            Spelled::Unsigned(bits) => self.push_piece(Piece::Unsigned(bits)),
            Spelled::Hex(bits) => self.push_piece(Piece::Hex(bits)),
            Spelled::Char => self.push_piece(Piece::Char),
            Spelled::Text => self.push_piece(Piece::Text),
            Spelled::Percent => self.push_byte(b'%'),
        }
    }

    // What the bytes begin with, and how many of them are passed over behind the first.
    fn push_first(&mut self, place: u32, bytes: &[u8]) -> Result<usize, CompileFault>
        requires some { 0 < length bytes.now }
        requires no_end { slice_index bytes.now 0 ≢ 0 }
        ensures pushed { IfOk result (λ n. option_map (so_far self.old) (pieces_from 0 bytes.now) ≡ option_map (so_far self.new) (pieces_from n (drop 1 bytes.now))) }
        ensures fault { IfErr result (λ e. Fails e (format_by place (option_map (so_far self.old) (pieces_from 0 bytes.now)))) }
    {
        if bytes[0] != b'%' {
            self.push_byte(bytes[0])?;
            return Ok(0);
        }
        match conversion_at(bytes) {
            Some((len, spelled)) => {
                self.push(spelled)?;
                Ok(len.saturating_sub(1))
            }
            None => refused(place, Kind::OutsideSubset(15)),
        }
    }

    // All the pieces.
    fn finish(mut self) -> Result<Vec<Piece>, AllocError>
        ensures { IfOk result (λ all. pieces_view all ≡ so_far self []) }
    {
        self.flush()?;
        Ok(self.done)
    }
}

/// The pieces of a format, which ends at a zero byte.
pub fn pieces_of(alloc: Global, place: u32, bytes: &[u8]) -> Result<Vec<Piece>, CompileFault>
    ensures { Gives pieces_view result (format_by place (pieces_of bytes.now)) }
{
    let mut pieces = Pieces::new(alloc);
    let mut passed_over = 0;
    'bytes: for (i, byte) in bytes.iter().enumerate() {
        if passed_over > 0 {
            passed_over -= 1;
            continue;
        }
        if *byte == 0 {
            return Ok(pieces.finish()?);
        }
        passed_over = pieces.push_first(place, &bytes[i..])?;
    }
    Ok(pieces.finish()?)
}

// A number for a piece that writes one of so many bits (C11 6.5.2.2 p6).
fn number_for(alloc: Global, place: u32, bits: u8, e: Box<Expr>) -> Result<Box<Expr>, CompileFault>
    ensures { Gives boxed_expr_view result (or_mismatch place (number_for bits (type_view e.value.ty) (boxed_expr_view e))) }
{
    match &e.ty {
        CType::Int(t) => {
            let t = *t;
            let promoted = promote(t);
            if promoted.bits == bits {
                converted(alloc, t, promoted, e)
            } else {
                refused(place, Kind::TypeMismatch)
            }
        }
        _ => refused(place, Kind::TypeMismatch),
    }
}

// A pointer to char, signed or not.
fn text_for(place: u32, e: Box<Expr>) -> Result<Box<Expr>, Refusal>
    ensures { Says boxed_expr_view result (or_mismatch place (text_for (type_view e.value.ty) (boxed_expr_view e))) }
{
    let kind = Kind::TypeMismatch;
    let CType::Pointer(target) = &e.ty else {
        return Err(Refusal { place, kind });
    };
    match &**target {
        CType::Int(t) => {
            if t.bits == 8 {
                Ok(e)
            } else {
                Err(Refusal { place, kind })
            }
        }
        _ => Err(Refusal { place, kind }),
    }
}

// What a piece takes of the arguments.
fn argument_for(
    alloc: Global,
    place: u32,
    piece: &Piece,
    e: Box<Expr>,
) -> Result<Box<Expr>, CompileFault>
    ensures { Gives boxed_expr_view result (or_mismatch place (argument_for (piece_view piece.now) (boxed_expr_view e))) }
{
    match piece {
        Piece::Bytes(_) => refused(place, Kind::TypeMismatch),
        Piece::Signed(bits) => number_for(alloc, place, *bits, e),
        Piece::Unsigned(bits) => number_for(alloc, place, *bits, e),
        Piece::Hex(bits) => number_for(alloc, place, *bits, e),
        Piece::Char => number_for(alloc, place, 32, e),
        Piece::Text => as_fault(text_for(place, e)),
    }
}

// What a piece takes of an argument of a list.
fn argument_of(alloc: Global, place: u32, piece: &Piece, e: Expr) -> Result<Expr, CompileFault>
    ensures { Gives expr_view result (or_mismatch place (argument_for (piece_view piece.now) (expr_view e))) }
{
    let e = Box::new(alloc, e)?;
    let e = argument_for(alloc, place, piece, e)?;
    Ok(Box::into_inner(e))
}

// Whether a piece takes no argument.
fn is_bytes(piece: &Piece) -> bool
    ensures { result ≡ is_bytes (piece_view piece.now) }
{
    matches!(piece, Piece::Bytes(_))
}

// One argument for each piece that takes one, and no more.
fn arguments_for(
    alloc: Global,
    place: u32,
    pieces: &[Piece],
    args: Vec<Expr>,
) -> Result<Vec<Expr>, CompileFault>
    ensures { Gives exprs_view result (or_mismatch place (arguments_for (map piece_view pieces.now) (exprs_view args))) }
{
    let mut rest = args.into_iter();
    let mut all = Vec::new(alloc);
    'pieces: for piece in pieces {
        if is_bytes(piece) {
            continue;
        }
        let Some(e) = rest.next() else {
            return refused(place, Kind::TypeMismatch);
        };
        let e = argument_of(alloc, place, piece, e)?;
        all.push(e)?;
    }
    match rest.next() {
        Some(_) => refused(place, Kind::TypeMismatch),
        None => Ok(all),
    }
}

/// `printf`, at its name: an argument for each piece that takes one.
#[tactic(auto, using(type_context::proofs::Judging::fails_part))]
pub fn printed(
    alloc: Global,
    place: u32,
    pieces: Vec<Piece>,
    args: Vec<Expr>,
) -> Result<Box<Expr>, CompileFault>
    ensures { Gives boxed_expr_view result (printed place (pieces_view pieces, exprs_view args)) }
{
    let args = arguments_for(alloc, place, &pieces, args)?;
    let ty = CType::Int(IntType::int());
    library_call(alloc, place, ty, Lib::Print(pieces), args)
}
