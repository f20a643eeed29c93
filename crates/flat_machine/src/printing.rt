//! Prints: all of one, or nothing.

ghost use Rattle.std.specs.Prelude.{◌≡◌, ◌+◌, ◌^◌, ◌<◌, ◌≤◌, ◌++◌, All, map, length, drop, count_by, true, false, pos, vec_len, vec_capacity};
ghost use Rattle.std.specs.List.{list_all};
ghost use Rattle.std.specs.Fmt.{digit_glyph, digits};
ghost use Rattle.ak_words.specs.Wrapped.{residue};
ghost use Rattle.c_tree.specs.Typed.{signed};
ghost use Rattle.c_tree.specs.TypedPrinting.{takes_number, takes_text, written};
ghost use Rattle.c_tree.specs.TypedViews.{piece_view};
ghost use Rattle.struct_ir.specs.Valid.{has_width, is_piece};
ghost use Rattle.struct_ir.specs.Views.{place_view};
ghost use Rattle.flat_store.specs.Flat.{HasByte, HasBytes, byte_at, bytes_from};
ghost use Rattle.flat_meaning.specs.Accesses.{output_room, printed};
ghost use Rattle.flat_meaning.specs.Actions.{printed_parts};
ghost use Rattle.flat_meaning.specs.Printing.{bytes, text, read_part, read_parts};
ghost use Rattle.flat_meaning.specs.Words.{target_of, word_at};
ghost use Rattle.flat_rules.specs.Machine as turns;
ghost use Rattle.flat_threads.specs.Contexts.{IsInCall};
ghost use Rattle.flat_threads.specs.Deeds.{ArePlacesOf, top_of};
ghost use Rattle.flat_machine.specs.inner.Dones.{Does, Went};
ghost use Rattle.flat_machine.specs.inner.Prints.{PrintsPart};

use crate::done::Done;
use crate::shared::Shared;
use ak_trace::TrapKind;
use c_tree::typed::Piece;
use flat_store::Flat;
use flat_threads::Context;
use struct_ir::Place;

// Why a print stops.
enum Fault {
    // An address has no byte.
    Outside(u64),
    // A byte would pass the limit.
    Full,
}

impl Shared {
    /// Prints pieces in order, with these places for texts and these registers for numbers, and gives how many bytes those were.
    pub(crate) fn print(
        &mut self,
        ctx: &Context,
        pieces: &[Piece],
        places: &[Place],
        temps: &[u32],
    ) -> Done
        requires call { IsInCall ctx.now.stage }
        requires texts { count_by takes_text (map piece_view pieces.now) ≡ length places.now }
        requires numbers { count_by takes_number (map piece_view pieces.now) ≡ length temps.now }
        requires widths { list_all is_piece (map piece_view pieces.now) ≡ true }
        requires places { ArePlacesOf (top_of ctx.now).own (map place_view places.now) }
        requires temps { All (λ r. r < length (top_of ctx.now).own.temps) temps.now }
        ensures does { let l = (top_of ctx.now).own in Does self.old self.new result (printed self.old.output_limit (printed_parts (map piece_view pieces.now) (map (target_of l) (map place_view places.now)) (map (word_at l) temps.now)) self.old.memory) }
        ensures told { Went result turns.stepped }
    {
        let before = self.output.len();
        match self.put_pieces(ctx, pieces, places, temps) {
            Ok(()) => Done::went((self.output.len() - before) as u64),
            Err(fault) => {
                self.output.truncate(before);
                match fault {
                    Fault::Outside(address) => Done::Trap(address, TrapKind::Print),
                    Fault::Full => Done::Full,
                }
            }
        }
    }

    // All pieces in order, or those before the first that has a fault, and a part of that.
    fn put_pieces(
        &mut self,
        ctx: &Context,
        pieces: &[Piece],
        places: &[Place],
        temps: &[u32],
    ) -> Result<(), Fault>
        requires call { IsInCall ctx.now.stage }
        requires texts { count_by takes_text (map piece_view pieces.now) ≡ length places.now }
        requires numbers { count_by takes_number (map piece_view pieces.now) ≡ length temps.now }
        requires widths { list_all is_piece (map piece_view pieces.now) ≡ true }
        requires places { ArePlacesOf (top_of ctx.now).own (map place_view places.now) }
        requires temps { All (λ r. r < length (top_of ctx.now).own.temps) temps.now }
        ensures { let l = (top_of ctx.now).own in PrintsPart (read_parts self.old.memory.storage.bytes (printed_parts (map piece_view pieces.now) (map (target_of l) (map place_view places.now)) (map (word_at l) temps.now)) (output_room self.old.output_limit self.old.memory)) self.old self.new result }
    {
        let mut texts = 0usize;
        let mut numbers = 0usize;
        for piece in pieces {
            match piece {
                Piece::Bytes(bytes) => self.put_bytes(bytes)?,
                Piece::Text => {
                    self.put_text(ctx.target(&places[texts]).address)?;
                    texts += 1;
                }
                number => {
                    self.put_number(number, ctx.word(temps[numbers]))?;
                    numbers += 1;
                }
            }
        }
        Ok(())
    }

    // The bytes of a piece.
    fn put_bytes(&mut self, all: &[u8]) -> Result<(), Fault>
        ensures { PrintsPart (read_part self.old.memory.storage.bytes (bytes all.now) (output_room self.old.output_limit self.old.memory)) self.old self.new result }
    {
        if all.len() > self.output_limit as usize - self.output.len() {
            return Err(Fault::Full);
        }
        append(&mut self.output, all);
        Ok(())
    }

    // The text at an address.
    fn put_text(&mut self, at: u64) -> Result<(), Fault>
        ensures { PrintsPart (read_part self.old.memory.storage.bytes (text at) (output_room self.old.output_limit self.old.memory)) self.old self.new result }
    {
        let room = u64::from(self.output_limit) - self.output.len() as u64;
        match self.arena.flat().text_len(at, room) {
            Ok(Some(len)) => {
                append_text(&mut self.output, self.arena.flat(), at, len);
                Ok(())
            }
            Ok(None) => Err(Fault::Full),
            Err(outside) => Err(Fault::Outside(outside.0)),
        }
    }

    // What a piece writes for a number.
    fn put_number(&mut self, piece: &Piece, word: u64) -> Result<(), Fault>
        requires number { takes_number (piece_view piece.now) ≡ true }
        requires width { is_piece (piece_view piece.now) ≡ true }
        ensures { PrintsPart (read_part self.old.memory.storage.bytes (bytes (written (piece_view piece.now) (pos word))) (output_room self.old.output_limit self.old.memory)) self.old self.new result }
    {
        match piece {
            Piece::Signed(bits) => self.put_signed(*bits, word),
            Piece::Unsigned(bits) => self.put_digits(low(*bits, word), 10),
            Piece::Hex(bits) => self.put_digits(low(*bits, word), 16),
            _ => self.put_bytes(&[(word % 256) as u8]),
        }
    }

    // A number of so many bits in decimal, with its sign.
    fn put_signed(&mut self, bits: u8, word: u64) -> Result<(), Fault>
        requires { has_width bits ≡ true }
        ensures { PrintsPart (read_part self.old.memory.storage.bytes (bytes (written (signed bits) (pos word))) (output_room self.old.output_limit self.old.memory)) self.old self.new result }
    {
        let half = if bits == 32 { 1u64 << 31 } else { 1u64 << 63 };
        let number = low(bits, word);
        if number < half {
            return self.put_digits(number, 10);
        }
        self.put_bytes(b"-")?;
        self.put_digits(half - (number - half), 10)
    }

    // A number in a base, without leading zeros.
    fn put_digits(&mut self, number: u64, base: u64) -> Result<(), Fault>
        requires least { 2 ≤ base }
        requires most { base ≤ 16 }
        ensures { PrintsPart (read_part self.old.memory.storage.bytes (bytes (digits base false number)) (output_room self.old.output_limit self.old.memory)) self.old self.new result }
    {
        let mut digits = [0u8; 64];
        let first = write_digits(number, base, &mut digits);
        self.put_bytes(&digits[first..])
    }
}

// Writes bytes behind others, for which there is room.
fn append(output: &mut Vec<u8>, bytes: &[u8])
    requires { vec_len output.old + length bytes.now ≤ vec_capacity output.old }
    ensures items { output.new.items ≡ output.old.items ++ bytes.now }
    ensures capacity { vec_capacity output.new ≡ vec_capacity output.old }
{
    for byte in bytes {
        output.push_reserved(*byte);
    }
}

// Writes the bytes from an address on behind others.
fn append_text(output: &mut Vec<u8>, flat: &Flat, at: u64, len: u64)
    requires there { HasBytes flat.now at len }
    requires fits { at + len < 2 ^ 64 }
    requires room { vec_len output.old + len ≤ vec_capacity output.old }
    ensures items { output.new.items ≡ output.old.items ++ bytes_from flat.now at len }
    ensures capacity { vec_capacity output.new ≡ vec_capacity output.old }
{
    for i in 0..len {
        output.push_reserved(byte_at(flat, at + i));
    }
}

// The byte at an address that has one.
fn byte_at(flat: &Flat, at: u64) -> u8
    requires { HasByte flat.now at }
    ensures { result ≡ byte_at flat.now at }
{
    match flat.load(at, 1) {
        Ok(byte) => byte as u8,
        Err(_) => unreachable!(),
    }
}

// The low bits of a word.
fn low(bits: u8, word: u64) -> u64
    requires { has_width bits ≡ true }
    ensures { result ≡ residue (2 ^ bits) (pos word) }
{
    if bits == 32 { word % (1 << 32) } else { word }
}

// Writes the digits of a number in a base at the end of these bytes, and gives where they begin.
fn write_digits(number: u64, base: u64, into: &mut [u8; 64]) -> usize
    requires least { 2 ≤ base }
    requires most { base ≤ 16 }
    ensures within { result ≤ 64 }
    ensures digits { drop result into.new ≡ digits base false number }
{
    let mut first = 64usize;
    let mut rest = number;
    while first > 0 {
        first -= 1;
        into[first] = digit((rest % base) as u8);
        rest /= base;
        if rest == 0 {
            break;
        }
    }
    first
}

// The digit for a number below 16.
fn digit(number: u8) -> u8
    requires { number < 16 }
    ensures { result ≡ digit_glyph false number }
{
    if number < 10 {
        b'0' + number
    } else {
        b'a' + (number - 10)
    }
}
