ghost use Rattle.std.specs.Prelude.{◌≡◌, ◌<◌, ◌≤◌, ◌+◌, ◌^◌, IfOk, IfSome, length, map, take, drop, false};
ghost use Rattle.ak_words.specs.Bytes.{low_bytes};
ghost use Rattle.block_store.specs.Cells.{size_of, access_of, cells_of, pointer_cells, has_unknown, number_of, read_number, are_parts, are_zeros, pointer_of, read};
ghost use Rattle.block_store.specs.Blocks.{with_cells};
ghost use Rattle.block_store.specs.Texts.{text_of, length_of};
ghost use Rattle.block_store.specs.inner.Copying.{is_read_late};
ghost use Rattle.block_store.specs.declared.values.Cell.TheVariants.{Byte};
ghost use Rattle.block_store.specs.declared.values.Ptr.TheVariants.{To};

use crate::values::{Access, Cell, Ptr, Value};
use ak_words::{NoMemory, Num, Rule};
use std::alloc::Global;

/// The cells that a value is stored as, of which the first come that its access takes.
pub fn cells_of(v: Value) -> [Cell; 8]
    ensures { take (size_of (access_of v)) result ≡ cells_of v }
{
    match v {
        Value::Num(number) => byte_cells(number.to_bits()),
        Value::Pointer(Ptr::Null) => [Cell::Byte(0); 8],
        Value::Pointer(Ptr::To { block, offset }) => part_cells(block, offset),
    }
}

/// The value that an access takes the cells for.
pub fn read(how: Access, cells: &[Cell]) -> Result<Value, Rule>
    requires { length cells.now ≡ size_of how }
    ensures { result ≡ read how cells.now }
{
    if has_unknown(cells) {
        return Err(Rule::C4);
    }
    let value = match how {
        Access::Number(ty) => match number_of(cells) {
            Some(bits) => Some(Value::Num(Num::from_bits(ty, bits))),
            None => None,
        },
        Access::Pointer => match pointer_of(cells) {
            Some(pointer) => Some(Value::Pointer(pointer)),
            None => None,
        },
    };
    value.ok_or(Rule::C16)
}

/// The number of at most eight bytes whose bytes the cells are.
pub fn read_number(cells: &[Cell]) -> Result<u64, Rule>
    requires { length cells.now ≤ 8 }
    ensures { result ≡ read_number cells.now }
{
    if has_unknown(cells) {
        Err(Rule::C4)
    } else {
        number_of(cells).ok_or(Rule::C16)
    }
}

/// How many bytes come before the first zero byte.
pub fn text_len(cells: &[Cell]) -> Result<u32, Rule>
    requires { length cells.now < 2 ^ 32 }
    ensures { result ≡ length_of (text_of cells.now) }
{
    for (k, cell) in cells.iter().enumerate() {
        match cell {
            Cell::Byte(0) => return Ok(k as u32),
            Cell::Byte(_) => {}
            Cell::Unknown => return Err(Rule::C4),
            Cell::Part { .. } => return Err(Rule::C16),
        }
    }
    Err(Rule::C5)
}

/// Copies `n` cells, in order, none of which is read after it was written.
pub fn copy_inside(cells: &mut [Cell], to: usize, from: usize, n: usize)
    requires target { to + n ≤ length cells.old }
    requires source { from + n ≤ length cells.old }
    requires apart { is_read_late n to from ≡ false }
    ensures { cells.new ≡ with_cells cells.old to (take n (drop from cells.old)) }
{
    for k in 0..n {
        cells[to + k] = cells[from + k];
    }
}

/// The cells of a string literal of these bytes.
pub fn literal_cells(alloc: Global, bytes: &[u8]) -> Result<Vec<Cell>, NoMemory>
    ensures { IfOk result (λ cells. cells.items ≡ map Byte bytes.now) }
{
    let mut cells = Vec::with_capacity(alloc, bytes.len())?;
    for byte in bytes {
        cells.push(Cell::Byte(*byte))?;
    }
    Ok(cells)
}

/// The bytes of a number, the lowest first.
pub fn byte_cells(bits: u64) -> [Cell; 8]
    ensures { result ≡ map Byte (low_bytes 8 bits) }
{
    let [b0, b1, b2, b3, b4, b5, b6, b7] = bits.to_le_bytes();
    [
        Cell::Byte(b0),
        Cell::Byte(b1),
        Cell::Byte(b2),
        Cell::Byte(b3),
        Cell::Byte(b4),
        Cell::Byte(b5),
        Cell::Byte(b6),
        Cell::Byte(b7),
    ]
}

// The parts of a pointer in order.
fn part_cells(block: u64, offset: u32) -> [Cell; 8]
    ensures { result ≡ pointer_cells (To block offset) }
{
    let part = |part: u8| Cell::Part {
        block,
        offset,
        part,
    };
    [
        part(0),
        part(1),
        part(2),
        part(3),
        part(4),
        part(5),
        part(6),
        part(7),
    ]
}

fn has_unknown(cells: &[Cell]) -> bool
    ensures { result ≡ has_unknown cells.now }
{
    match cells {
        [] => false,
        [Cell::Unknown, ..] => true,
        [_, rest @ ..] => has_unknown(rest),
    }
}

// The number whose bytes the cells are.
fn number_of(cells: &[Cell]) -> Option<u64>
    requires { length cells.now ≤ 8 }
    ensures number { result ≡ number_of cells.now }
    ensures bound { IfSome result (λ n. n < 256 ^ length cells.now) }
{
    match cells {
        [] => Some(0),
        [Cell::Byte(low), rest @ ..] => match number_of(rest) {
            Some(high) => Some(u64::from(*low) + 256 * high),
            None => None,
        },
        _ => None,
    }
}

// Whether the cells are the parts of a pointer from part `k` on.
fn are_parts(cells: &[Cell], block: u64, offset: u32, k: u8) -> bool
    requires { k + length cells.now ≤ 8 }
    ensures { result ≡ are_parts block offset k cells.now }
{
    match cells {
        [] => true,
        [
            Cell::Part {
                block: b,
                offset: o,
                part,
            },
            rest @ ..,
        ] => *b == block && *o == offset && *part == k && are_parts(rest, block, offset, k + 1),
        _ => false,
    }
}

fn are_zeros(cells: &[Cell]) -> bool
    ensures { result ≡ are_zeros cells.now }
{
    match cells {
        [] => true,
        [Cell::Byte(byte), rest @ ..] => *byte == 0 && are_zeros(rest),
        _ => false,
    }
}

// The pointer that the cells hold.
fn pointer_of(cells: &[Cell]) -> Option<Ptr>
    requires { length cells.now ≤ 8 }
    ensures { result ≡ pointer_of cells.now }
{
    match cells {
        [Cell::Part { block, offset, .. }, ..] => {
            if are_parts(cells, *block, *offset, 0) {
                Some(Ptr::To {
                    block: *block,
                    offset: *offset,
                })
            } else {
                None
            }
        }
        _ => {
            if are_zeros(cells) {
                Some(Ptr::Null)
            } else {
                None
            }
        }
    }
}
