ghost use Rattle.std.specs.Prelude.{◌≡◌, ◌^◌, ◌<◌, ◌≤◌, pos, length, false};
ghost use Rattle.std.specs.List.{find};
ghost use Rattle.std.specs.Option.{option_map};
ghost use Rattle.std.specs.Option.{SomeIff};
ghost use Rattle.std.specs.Char.{digit_value};
ghost use Rattle.std.specs.Str.Parse.{digits_value};
ghost use Rattle.ak_words.specs.IntType.{is_held};
ghost use Rattle.c_lex.specs.Constants.{is_exponent, goes_on, number_len, base_of, prefix_of, radix_of, is_digit_of, suffix_of, decimal_types, other_types, types_of, constant_of, is_floating_byte, no_constant, number_of};
ghost use Rattle.c_lex.specs.inner.Classes.{is_in};

use crate::byte::{Class, run_len};
use crate::refusal::Kind;
use ak_words::{IntType, Num};

/// The base of an integer constant.
#[derive(Clone, Copy)]
pub enum Base {
    Decimal,
    Octal,
    Hexadecimal,
}

/// The suffix of an integer constant, by what it says.
#[derive(Clone, Copy)]
pub enum Suffix {
    Plain,
    /// `u`
    Unsigned,
    /// `l` or `ll`
    Long,
    /// Both.
    UnsignedLong,
}

/// Whether a byte is an exponent's letter, after which a sign goes on with a number.
fn is_exponent(byte: u8) -> bool
    ensures { result ≡ is_exponent byte }
{
    matches!(byte, b'e' | b'E' | b'p' | b'P')
}

/// Whether a byte goes on with a number.
fn goes_on(after_exponent: bool, byte: u8) -> bool
    ensures { result ≡ goes_on after_exponent byte }
{
    Class::Name.has(byte) || byte == b'.' || after_exponent && matches!(byte, b'+' | b'-')
}

/// How far a number goes (C11 6.4.8).
pub(crate) fn number_len(bytes: &[u8]) -> usize
    ensures len { result ≡ number_len false bytes.now }
    ensures within { result ≤ length bytes.now }
{
    let mut after_exponent = false;
    for (i, byte) in bytes.iter().enumerate() {
        if !goes_on(after_exponent, *byte) {
            return i;
        }
        after_exponent = is_exponent(*byte);
    }
    bytes.len()
}

/// The base of a number.
#[tactic(auto, unfolding(crate::specs::Constants::base_of))]
fn base_of(run: &[u8]) -> Base
    ensures base { result ≡ base_of run.now }
    ensures within { prefix_of result ≤ length run.now }
{
    if run.starts_with(b"0x") || run.starts_with(b"0X") {
        Base::Hexadecimal
    } else if run.starts_with(b"0") {
        Base::Octal
    } else {
        Base::Decimal
    }
}

impl Base {
    /// How many bytes stand before the digits.
    fn prefix_len(self) -> usize
        ensures { result ≡ prefix_of self }
    {
        match self {
            Base::Decimal | Base::Octal => 0,
            Base::Hexadecimal => 2,
        }
    }

    /// How many digits there are.
    fn radix(self) -> u8
        ensures { result ≡ radix_of self }
    {
        match self {
            Base::Decimal => 10,
            Base::Octal => 8,
            Base::Hexadecimal => 16,
        }
    }

    /// The class of the digits.
    fn digits(self) -> Class
        ensures { is_in result ≡ is_digit_of self }
    {
        match self {
            Base::Decimal => Class::Digit,
            Base::Octal => Class::OctalDigit,
            Base::Hexadecimal => Class::HexDigit,
        }
    }
}

/// What a suffix says, if it is one.
#[tactic(auto, unfolding(crate::specs::Constants::suffix_of))]
fn suffix_of(bytes: &[u8]) -> Option<Suffix>
    ensures { result ≡ suffix_of bytes.now }
{
    match bytes {
        b"" => Some(Suffix::Plain),
        b"u" | b"U" => Some(Suffix::Unsigned),
        b"l" | b"L" | b"ll" | b"LL" => Some(Suffix::Long),
        b"ul"
        | b"uL"
        | b"ull"
        | b"uLL"
        | b"Ul"
        | b"UL"
        | b"Ull"
        | b"ULL"
        | b"lu"
        | b"lU"
        | b"Lu"
        | b"LU"
        | b"llu"
        | b"llU"
        | b"LLu"
        | b"LLU" => Some(Suffix::UnsignedLong),
        _ => None,
    }
}

/// What a byte is worth as a digit; 36 where it is none.
fn digit_value(byte: u8) -> u8
    ensures { result ≡ digit_value byte }
{
    match byte {
        b'0'..=b'9' => byte - b'0',
        b'A'..=b'Z' => byte - b'A' + 10,
        b'a'..=b'z' => byte - b'a' + 10,
        _ => 36,
    }
}

/// The value of digits, if 64 bits hold it.
pub(crate) fn value_of(radix: u8, digits: &[u8]) -> Option<u64>
    requires { 0 < radix }
    ensures { SomeIff result (digits_value radix digits.now < 2 ^ 64) (digits_value radix digits.now) }
{
    let mut value: u64 = 0;
    for digit in digits {
        value = value
            .checked_mul(u64::from(radix))?
            .checked_add(u64::from(digit_value(*digit)))?;
    }
    Some(value)
}

/// The first of the types that holds the value.
fn first_holding(types: &[IntType], value: u64) -> Option<IntType>
    ensures { result ≡ find (λ t. is_held t (pos value)) types.now }
{
    for ty in types {
        if ty.holds(i128::from(value)) {
            return Some(*ty);
        }
    }
    None
}

/// The type of a decimal constant: the first that holds its value, of those that it may have (C11 6.4.4.1).
fn decimal_type(suffix: Suffix, value: u64) -> Option<IntType>
    ensures { result ≡ find (λ t. is_held t (pos value)) (decimal_types suffix) }
{
    let long = IntType::long();
    let unsigned_long = IntType::unsigned_long();
    match suffix {
        Suffix::Plain => first_holding(&[IntType::int(), long], value),
        Suffix::Unsigned => first_holding(&[IntType::unsigned_int(), unsigned_long], value),
        Suffix::Long => first_holding(&[long], value),
        Suffix::UnsignedLong => first_holding(&[unsigned_long], value),
    }
}

/// The same of an octal or hexadecimal constant.
fn other_type(suffix: Suffix, value: u64) -> Option<IntType>
    ensures { result ≡ find (λ t. is_held t (pos value)) (other_types suffix) }
{
    let unsigned = IntType::unsigned_int();
    let long = IntType::long();
    let unsigned_long = IntType::unsigned_long();
    match suffix {
        Suffix::Plain => first_holding(&[IntType::int(), unsigned, long, unsigned_long], value),
        Suffix::Unsigned => first_holding(&[unsigned, unsigned_long], value),
        Suffix::Long => first_holding(&[long, unsigned_long], value),
        Suffix::UnsignedLong => first_holding(&[unsigned_long], value),
    }
}

/// The type of a constant.
fn type_of(base: Base, suffix: Suffix, value: u64) -> Option<IntType>
    ensures { result ≡ find (λ t. is_held t (pos value)) (types_of base suffix) }
{
    match base {
        Base::Decimal => decimal_type(suffix, value),
        Base::Octal | Base::Hexadecimal => other_type(suffix, value),
    }
}

/// What digits in a base with a suffix stand for, if a type holds it.
#[tactic(auto, unfolding(crate::specs::Constants::constant_of))]
fn constant_of(base: Base, suffix: Suffix, digits: &[u8]) -> Option<Num>
    ensures { result ≡ constant_of base suffix digits.now }
{
    let value = value_of(base.radix(), digits)?;
    let ty = type_of(base, suffix, value)?;
    Some(Num::from_bits(ty, value))
}

/// Whether the byte makes a number a floating constant.
fn is_floating_byte(base: Base, byte: u8) -> bool
    ensures { result ≡ is_floating_byte base byte }
{
    match base {
        Base::Decimal | Base::Octal => matches!(byte, b'.' | b'e' | b'E'),
        Base::Hexadecimal => matches!(byte, b'.' | b'p' | b'P'),
    }
}

/// Why a number that is no integer constant is refused.
#[tactic(auto, unfolding(crate::specs::Constants::no_constant))]
fn no_constant(base: Base, run: &[u8]) -> Kind
    ensures { result ≡ no_constant base run.now }
{
    for byte in run {
        if is_floating_byte(base, *byte) {
            return Kind::OutsideSubset(2);
        }
    }
    Kind::UnexpectedToken
}

/// What a number's bytes stand for: an integer constant, or why not (C11 6.4.4.1).
#[tactic(auto, unfolding(crate::specs::Constants::number_of))]
pub(crate) fn number_of(run: &[u8]) -> Result<Num, Kind>
    ensures { result ≡ number_of run.now }
{
    let base = base_of(run);
    let body = &run[base.prefix_len()..];
    let len = run_len(base.digits(), body);
    let (digits, rest) = body.split_at(len);
    match suffix_of(rest) {
        Some(suffix) if len != 0 => constant_of(base, suffix, digits).ok_or(Kind::NumberTooWide),
        _ => Err(no_constant(base, run)),
    }
}
