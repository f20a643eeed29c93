//! Writing numbers.

ghost use Rattle.std.specs.Prelude.{◌≡◌, ◌<◌, true, OnOk};
ghost use Rattle.formats.specs.Formats.{byte, u32, u64, behind};
ghost use Rattle.code_file.specs.Numbers.{u32_or_none, flag, width_number, type_number, int_type, access_number, access, value, piece_bits};
ghost use Rattle.struct_ir.specs.Valid.{has_width};
ghost use Rattle.code_save.specs.inner.Fits.{option_fits};
ghost use Rattle.code_save.specs.inner.Written.{Wrote};

use crate::output::Output;
use ak_words::{IntType, NoMemory, Num};
use block_store::Access;

/// A byte.
pub fn put_byte(out: &mut Output, b: u8) -> Result<(), NoMemory>
    ensures { OnOk result (Wrote byte b true out.old out.new) }
{
    out.put(&[b])
}

/// A number of four bytes.
pub fn put_u32(out: &mut Output, n: u32) -> Result<(), NoMemory>
    ensures { OnOk result (Wrote u32 n true out.old out.new) }
{
    out.put(&n.to_le_bytes())
}

/// A number of eight bytes.
pub fn put_u64(out: &mut Output, n: u64) -> Result<(), NoMemory>
    ensures { OnOk result (Wrote u64 n true out.old out.new) }
{
    out.put(&n.to_le_bytes())
}

/// The count of a list. One that four bytes can't say has no spelling, and no memory holds its list.
pub fn put_count(out: &mut Output, count: usize) -> Result<(), NoMemory>
    ensures { OnOk result (Wrote u32 count true out.old out.new) }
{
    if count > 0xffff_ffff {
        return Err(NoMemory);
    }
    put_u32(out, count as u32)
}

/// A number of four bytes, or none.
pub fn put_option(out: &mut Output, n: Option<u32>) -> Result<(), NoMemory>
    ensures { OnOk result (Wrote u32_or_none n (option_fits n) out.old out.new) }
{
    match n {
        None => put_u32(out, u32::MAX),
        Some(n) => put_u32(out, n),
    }
}

/// A flag.
pub fn put_flag(out: &mut Output, b: bool) -> Result<(), NoMemory>
    ensures { OnOk result (Wrote flag b true out.old out.new) }
{
    if b { out.put(&[1]) } else { out.put(&[0]) }
}

/// The place of a width among the four.
fn width_number(bits: u8) -> u8
    ensures value { result ≡ width_number bits }
    ensures below { result < 4 }
{
    match bits {
        8 => 0,
        16 => 1,
        32 => 2,
        _ => 3,
    }
}

/// The number of a type.
fn type_number(ty: IntType) -> u8
    ensures { result ≡ type_number ty }
{
    let width = width_number(ty.bits);
    if ty.signed { width } else { 4 + width }
}

/// The type of a number.
pub fn put_type(out: &mut Output, ty: IntType) -> Result<(), NoMemory>
    ensures { OnOk result (Wrote int_type ty true out.old out.new) }
{
    out.put(&[type_number(ty)])
}

/// The number of a type of an access.
fn access_number(how: Access) -> u8
    ensures { result ≡ access_number how }
{
    match how {
        Access::Number(ty) => type_number(ty),
        Access::Pointer => 8,
    }
}

/// The type of an access.
pub fn put_access(out: &mut Output, how: Access) -> Result<(), NoMemory>
    ensures { OnOk result (Wrote access how true out.old out.new) }
{
    out.put(&[access_number(how)])
}

/// The value of a number of a type.
fn put_value(out: &mut Output, number: Num) -> Result<(), NoMemory>
    ensures { OnOk result (Wrote (value number.ty) number.value true out.old out.new) }
{
    out.put(&number.to_bits().to_le_bytes())
}

/// A type and its value.
pub fn put_number(out: &mut Output, number: Num) -> Result<(), NoMemory>
    ensures { OnOk result (Wrote (behind int_type value) (number.ty, number.value) true out.old out.new) }
{
    put_type(out, number.ty)?;
    put_value(out, number)
}

/// How many bits a piece writes.
pub fn put_piece_bits(out: &mut Output, bits: u8) -> Result<(), NoMemory>
    ensures { OnOk result (Wrote piece_bits bits (has_width bits) out.old out.new) }
{
    out.put(&[bits])
}
