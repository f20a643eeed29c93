//! Reading numbers.

ghost use Rattle.std.specs.Prelude.{◌≡◌, ◌≤◌, ◌<◌, ◌^◌, IfOk};
ghost use Rattle.ak_words.specs.IntType.{char};
ghost use Rattle.block_store.specs.declared.values.Access.TheVariants as accesses;
ghost use Rattle.formats.specs.Formats.{byte, byte_below, at_number, number, u32, u64, exactly};
ghost use Rattle.code_file.specs.inner.Gives.{Gives};
ghost use Rattle.code_file.specs.Numbers.{u32_or_none, flag, short, unsigned_char, unsigned_short, other_types, int_type, other_accesses, access, value, zeros, piece_bits};

use crate::fault::Fault;
use ak_words::{IntType, Num};
use block_store::Access;

/// A byte.
pub fn byte_at(bytes: &[u8]) -> Result<(u8, &[u8]), Fault>
    ensures value { Gives (λ x. (x.0, x.1.now)) result (byte.read bytes.now) }
    ensures below { IfOk result (λ x. x.0 < 256) }
{
    match bytes {
        [] => Err(Fault::Bad(0)),
        [b, rest @ ..] => Ok((*b, rest)),
    }
}

/// A byte below a limit.
pub fn tag_at(limit: u8, bytes: &[u8]) -> Result<(u8, &[u8]), Fault>
    ensures value { Gives (λ x. (x.0, x.1.now)) result ((byte_below limit).read bytes.now) }
    ensures below { IfOk result (λ x. x.0 < limit) }
{
    match bytes {
        [] => Err(Fault::Bad(0)),
        [b, rest @ ..] => {
            if *b < limit {
                Ok((*b, rest))
            } else {
                Err(Fault::Bad(bytes.len()))
            }
        }
    }
}

/// A number of four bytes.
#[tactic(auto, unfolding(formats::specs::Formats::u32))]
pub fn u32_at(bytes: &[u8]) -> Result<(u32, &[u8]), Fault>
    ensures { Gives (λ x. (x.0, x.1.now)) result (u32.read bytes.now) }
{
    if bytes.len() < 4 {
        return Err(Fault::Bad(0));
    }
    let (front, rest) = bytes.split_at(4);
    let number = u32::from_le_bytes([front[0], front[1], front[2], front[3]]);
    Ok((number, rest))
}

/// A number of eight bytes.
#[tactic(auto, unfolding(formats::specs::Formats::u64))]
pub fn u64_at(bytes: &[u8]) -> Result<(u64, &[u8]), Fault>
    ensures { Gives (λ x. (x.0, x.1.now)) result (u64.read bytes.now) }
{
    if bytes.len() < 8 {
        return Err(Fault::Bad(0));
    }
    let (front, rest) = bytes.split_at(8);
    let number = u64::from_le_bytes([
        front[0], front[1], front[2], front[3], front[4], front[5], front[6], front[7],
    ]);
    Ok((number, rest))
}

/// A number of four bytes, or none.
#[tactic(auto, unfolding(crate::specs::Numbers::u32_or_none))]
pub fn option_at(bytes: &[u8]) -> Result<(Option<u32>, &[u8]), Fault>
    ensures { Gives (λ x. (x.0, x.1.now)) result (u32_or_none.read bytes.now) }
{
    let (number, rest) = u32_at(bytes)?;
    if number == u32::MAX {
        Ok((None, rest))
    } else {
        Ok((Some(number), rest))
    }
}

/// A flag.
#[tactic(auto, unfolding(crate::specs::Numbers::flag))]
pub fn flag_at(bytes: &[u8]) -> Result<(bool, &[u8]), Fault>
    ensures { Gives (λ x. (x.0, x.1.now)) result (flag.read bytes.now) }
{
    match bytes {
        [0, rest @ ..] => Ok((false, rest)),
        [1, rest @ ..] => Ok((true, rest)),
        _ => Err(Fault::Bad(bytes.len())),
    }
}

/// `short`.
fn short() -> IntType
    ensures { result ≡ short }
{
    IntType {
        signed: true,
        bits: 16,
    }
}

/// `unsigned char`.
fn unsigned_char() -> IntType
    ensures { result ≡ unsigned_char }
{
    IntType {
        signed: false,
        bits: 8,
    }
}

/// `unsigned short`.
fn unsigned_short() -> IntType
    ensures { result ≡ unsigned_short }
{
    IntType {
        signed: false,
        bits: 16,
    }
}

/// The type of a number that has this number.
fn type_of(number: u8) -> IntType
    requires { number < 8 }
    ensures { result ≡ at_number char other_types number }
{
    match number {
        0 => IntType::char(),
        1 => short(),
        2 => IntType::int(),
        3 => IntType::long(),
        4 => unsigned_char(),
        5 => unsigned_short(),
        6 => IntType::unsigned_int(),
        _ => IntType::unsigned_long(),
    }
}

/// The type of a number.
#[tactic(auto, unfolding(crate::specs::Numbers::int_type))]
pub fn type_at(bytes: &[u8]) -> Result<(IntType, &[u8]), Fault>
    ensures { Gives (λ x. (x.0, x.1.now)) result (int_type.read bytes.now) }
{
    let (number, rest) = tag_at(8, bytes)?;
    Ok((type_of(number), rest))
}

/// The type of an access that has this number.
#[tactic(auto, using(crate::proofs::Accesses::number_at))]
fn access_of(number: u8) -> Access
    requires { number < 9 }
    ensures { result ≡ at_number (accesses.Number char) other_accesses number }
{
    if number == 8 {
        Access::Pointer
    } else {
        Access::Number(type_of(number))
    }
}

/// The type of an access.
#[tactic(auto, unfolding(crate::specs::Numbers::access))]
pub fn access_at(bytes: &[u8]) -> Result<(Access, &[u8]), Fault>
    ensures { Gives (λ x. (x.0, x.1.now)) result (access.read bytes.now) }
{
    let (number, rest) = tag_at(9, bytes)?;
    Ok((access_of(number), rest))
}

/// A number of so many bytes.
fn number_at(count: usize, bytes: &[u8]) -> Result<(u64, &[u8]), Fault>
    requires { count ≤ 8 }
    ensures value { Gives (λ x. (x.0, x.1.now)) result ((number count).read bytes.now) }
    ensures below { IfOk result (λ x. x.0 < 256 ^ count) }
{
    if count == 0 {
        return Ok((0, bytes));
    }
    let (low, rest) = byte_at(bytes)?;
    let (high, rest) = number_at(count - 1, rest)?;
    Ok((u64::from(low) + 256 * high, rest))
}

/// What stands behind these very bytes.
pub fn exactly_at<'a>(wanted: &[u8], bytes: &'a [u8]) -> Result<&'a [u8], Fault>
    ensures { Gives (λ rest. (tt, rest.now)) result ((exactly wanted.now).read bytes.now) }
{
    match wanted {
        [] => Ok(bytes),
        [w, more @ ..] => match bytes {
            [b, rest @ ..] if *b == *w => exactly_at(more, rest),
            _ => Err(Fault::Bad(bytes.len())),
        },
    }
}

const ZEROS: [u8; 8] = [0, 0, 0, 0, 0, 0, 0, 0];

/// So many zeros.
pub fn zeros(count: usize) -> &'static [u8]
    requires { count ≤ 8 }
    ensures { result.now ≡ zeros count }
{
    &ZEROS[..count]
}

/// The value of a number of this type.
#[tactic(auto, unfolding(crate::specs::Numbers::value))]
pub fn value_at(ty: IntType, bytes: &[u8]) -> Result<(Num, &[u8]), Fault>
    ensures value { Gives (λ x. (x.0.value, x.1.now)) result ((value ty).read bytes.now) }
    ensures of_type { IfOk result (λ x. x.0.ty ≡ ty) }
{
    let count = usize::from(ty.bits / 8);
    let (number, rest) = number_at(count, bytes)?;
    let rest = exactly_at(zeros(8 - count), rest)?;
    Ok((Num::from_bits(ty, number), rest))
}

/// How many bits a piece writes.
#[tactic(auto, unfolding(crate::specs::Numbers::piece_bits))]
pub fn piece_bits_at(bytes: &[u8]) -> Result<(u8, &[u8]), Fault>
    ensures { Gives (λ x. (x.0, x.1.now)) result (piece_bits.read bytes.now) }
{
    match bytes {
        [] => Err(Fault::Bad(0)),
        [b, rest @ ..] => {
            if *b == 32 || *b == 64 {
                Ok((*b, rest))
            } else {
                Err(Fault::Bad(bytes.len()))
            }
        }
    }
}
