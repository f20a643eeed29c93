//! What a call of printf prints, before the texts are read (C11 7.21.6.1).

ghost use Rattle.std.specs.Prelude.{◌≡◌, ℤ, List, [], ◌∷◌, true, false, IfOk, OnOk, map, decimal};
ghost use Rattle.std.specs.Fmt.{signed_decimal, digits};
ghost use Rattle.ak_words.specs.Wrapped.{residue, wrapped_value, bit_pattern};
ghost use Rattle.block_store.specs.Actions.{bytes, text};
ghost use Rattle.block_store.specs.declared.values.Ptr.{Ptr};
ghost use Rattle.c_tree.specs.Typed as tree;
ghost use Rattle.c_tree.specs.TypedPrinting.{written, parts, takes_number};
ghost use Rattle.c_tree.specs.TypedViews.{piece_view};
ghost use Rattle.c_meaning.specs.Library.{numbers_of, pointers_of};
ghost use Rattle.source_state.specs.Worlds.{printed_of};
ghost use Rattle.source_expressions.specs.inner.Gathered.{behind};

use ak_words::{IntType, NoMemory, Num};
use block_store::{Ptr, Value};
use c_tree::typed::Piece;
use source_state::Printed;
use std::alloc::Global;

// The numbers among the arguments, in order.
fn numbers_of(alloc: Global, args: &[Value]) -> Result<Vec<i128>, NoMemory>
    ensures { IfOk result (λ numbers. numbers.items ≡ numbers_of args.now) }
{
    let mut numbers = Vec::new(alloc);
    'each: for arg in args {
        if let Value::Num(n) = arg {
            numbers.push(n.value)?;
        }
    }
    Ok(numbers)
}

// The pointers among the arguments, in order.
fn pointers_of(alloc: Global, args: &[Value]) -> Result<Vec<Ptr>, NoMemory>
    ensures { IfOk result (λ pointers. pointers.items ≡ pointers_of args.now) }
{
    let mut pointers = Vec::new(alloc);
    'each: for arg in args {
        if let Value::Pointer(p) = arg {
            pointers.push(*p)?;
        }
    }
    Ok(pointers)
}

// A number in decimal, as one of a signed type.
fn signed(alloc: Global, ty: IntType, n: i128) -> Result<Vec<u8>, NoMemory>
    ensures { IfOk result (λ bytes. bytes.items ≡ signed_decimal (wrapped_value ty n)) }
{
    let value = Num::wrapping(ty, n).value;
    Ok(format!(in alloc; "{value}")?.into_bytes())
}

// A number in decimal, as one of an unsigned type.
fn unsigned(alloc: Global, ty: IntType, n: i128) -> Result<Vec<u8>, NoMemory>
    ensures { IfOk result (λ bytes. bytes.items ≡ decimal (bit_pattern ty n)) }
{
    let value = ty.bit_pattern(n);
    Ok(format!(in alloc; "{value}")?.into_bytes())
}

// A number in hexadecimal, as one of an unsigned type.
fn hexadecimal(alloc: Global, ty: IntType, n: i128) -> Result<Vec<u8>, NoMemory>
    ensures { IfOk result (λ bytes. bytes.items ≡ digits 16 false (bit_pattern ty n)) }
{
    let value = ty.bit_pattern(n);
    Ok(format!(in alloc; "{value:x}")?.into_bytes())
}

// The low byte of a number.
fn character(alloc: Global, n: i128) -> Result<Vec<u8>, NoMemory>
    ensures { IfOk result (λ bytes. bytes.items ≡ residue 256 n ∷ []) }
{
    let mut bytes = Vec::new(alloc);
    bytes.push(low_byte(n))?;
    Ok(bytes)
}

// The same as a byte.
fn low_byte(n: i128) -> u8
    ensures { result ≡ residue 256 n }
{
    IntType::char().bit_pattern(n) as u8
}

// What a piece writes for a number. A width that no piece has is answered as want of memory.
#[tactic(auto, using(crate::proofs::Pieces::signed_values))]
fn written(alloc: Global, piece: &Piece, n: i128) -> Result<Vec<u8>, NoMemory>
    ensures { IfOk result (λ bytes. bytes.items ≡ written (piece_view piece.now) n) }
{
    match piece {
        Piece::Bytes(all) => Ok(all.clone()?),
        Piece::Signed(32) => signed(alloc, IntType::int(), n),
        Piece::Signed(64) => signed(alloc, IntType::long(), n),
        Piece::Unsigned(32) => unsigned(alloc, IntType::unsigned_int(), n),
        Piece::Unsigned(64) => unsigned(alloc, IntType::unsigned_long(), n),
        Piece::Hex(32) => hexadecimal(alloc, IntType::unsigned_int(), n),
        Piece::Hex(64) => hexadecimal(alloc, IntType::unsigned_long(), n),
        Piece::Signed(_) => Err(NoMemory),
        Piece::Unsigned(_) => Err(NoMemory),
        Piece::Hex(_) => Err(NoMemory),
        Piece::Char => character(alloc, n),
        Piece::Text => Ok(Vec::new(alloc)),
    }
}

/// The parts that a call prints, of its arguments.
pub fn printed(alloc: Global, pieces: &[Piece], args: &[Value]) -> Result<Vec<Printed>, NoMemory>
    ensures { IfOk result (λ all. map printed_of all.items ≡ parts bytes text (map piece_view pieces.now) (numbers_of args.now) (pointers_of args.now)) }
{
    let numbers = numbers_of(alloc, args)?;
    let pointers = pointers_of(alloc, args)?;
    parts_of(alloc, pieces, &numbers, &pointers)
}

// What was gathered so far, and how many numbers and pointers were taken.
#[derive(Drop)]
struct SoFar {
    all: Vec<Printed>,
    numbers: usize,
    pointers: usize,
}

// The same, of the numbers and the pointers.
fn parts_of(
    alloc: Global,
    pieces: &[Piece],
    numbers: &[i128],
    pointers: &[Ptr],
) -> Result<Vec<Printed>, NoMemory>
    ensures { IfOk result (λ all. map printed_of all.items ≡ parts bytes text (map piece_view pieces.now) numbers.now pointers.now) }
{
    let mut so_far = SoFar {
        all: Vec::new(alloc),
        numbers: 0,
        pointers: 0,
    };
    'each: for piece in pieces {
        add(alloc, piece, numbers, pointers, &mut so_far)?;
    }
    Ok(so_far.all)
}

// One piece more.
fn add(
    alloc: Global,
    piece: &Piece,
    numbers: &[i128],
    pointers: &[Ptr],
    so_far: &mut SoFar,
) -> Result<(), NoMemory>
    ensures { OnOk result ((rest : List tree.Piece) → behind numbers.now pointers.now so_far.old (piece_view piece.now ∷ rest) ≡ behind numbers.now pointers.now so_far.new rest) }
{
    match piece {
        Piece::Bytes(bytes) => {
            let bytes = same_bytes(bytes)?;
            so_far.all.push(Printed::Bytes(bytes))?;
            Ok(())
        }
        Piece::Text => add_text(pointers, so_far),
        Piece::Signed(_) => add_number(alloc, piece, numbers, so_far),
        Piece::Unsigned(_) => add_number(alloc, piece, numbers, so_far),
        Piece::Hex(_) => add_number(alloc, piece, numbers, so_far),
        Piece::Char => add_number(alloc, piece, numbers, so_far),
    }
}

// The same bytes.
fn same_bytes(bytes: &Vec<u8>) -> Result<Vec<u8>, NoMemory>
    ensures { IfOk result (λ same. same.items ≡ bytes.now.items) }
{
    Ok(bytes.clone()?)
}

// The text at the next pointer, if there is one.
fn add_text(pointers: &[Ptr], so_far: &mut SoFar) -> Result<(), NoMemory>
    ensures { OnOk result ((numbers : List ℤ) (rest : List tree.Piece) → behind numbers pointers.now so_far.old (tree.text ∷ rest) ≡ behind numbers pointers.now so_far.new rest) }
{
    if so_far.pointers < pointers.len() {
        let at = pointers[so_far.pointers];
        so_far.all.push(Printed::Text(at))?;
        so_far.pointers += 1;
    }
    Ok(())
}

// What a piece writes for the next number, if there is one.
fn add_number(
    alloc: Global,
    piece: &Piece,
    numbers: &[i128],
    so_far: &mut SoFar,
) -> Result<(), NoMemory>
    ensures { OnOk result (takes_number (piece_view piece.now) ≡ true → (pointers : List Ptr) (rest : List tree.Piece) → behind numbers.now pointers so_far.old (piece_view piece.now ∷ rest) ≡ behind numbers.now pointers so_far.new rest) }
{
    let Some(n) = numbers.get(so_far.numbers) else {
        return Ok(());
    };
    let bytes = written(alloc, piece, *n)?;
    so_far.all.push(Printed::Bytes(bytes))?;
    so_far.numbers += 1;
    Ok(())
}
