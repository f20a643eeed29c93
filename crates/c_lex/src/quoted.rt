ghost use Rattle.std.specs.Prelude.{◌≡◌, ◌+◌, ◌<◌, ◌≤◌, ◌^◌, ◌==◌, length, false, IfOk, IfSome};
ghost use Rattle.std.specs.Option.{option_map};
ghost use Rattle.std.specs.Map.{lookup};
ghost use Rattle.std.specs.Result.{result_ok, result_err};
ghost use Rattle.std.specs.Str.Parse.{digits_value};
ghost use Rattle.c_lex.specs.Quoted.{closing, simple_escapes, byte_of_value, octal_escape, hex_escape, escape, character_at, characters_of, is_too_wide, is_unknown, bytes_of, string_of, char_value, char_of};

use crate::byte::{Class, run_len};
use crate::constant::value_of;
use crate::refusal::Kind;
use ak_words::{IntType, NoMemory, Num, convert};
use std::alloc::Global;

/// What one character of a literal stands for.
#[derive(Clone, Copy)]
pub enum Character {
    Byte(u8),
    /// An escape with a value above 255.
    TooWide,
    /// An escape that there isn't.
    Unknown,
}

/// A character, and how many bytes spell it.
#[derive(Clone, Copy)]
pub struct Spelled {
    pub character: Character,
    pub len: usize,
}

/// How many bytes stand before the closing quote, if it comes before the line ends.
pub(crate) fn closing(quote: u8, bytes: &[u8]) -> Option<usize>
    ensures place { result ≡ closing quote false 0 bytes.now }
    ensures within { IfSome result (λ len. len < length bytes.now) }
{
    let mut hidden = false;
    for (i, byte) in bytes.iter().enumerate() {
        if *byte == b'\n' {
            return None;
        }
        if *byte == quote && !hidden {
            return Some(i);
        }
        hidden = *byte == b'\\' && !hidden;
    }
    None
}

/// The byte that a simple escape stands for, by the letter behind its backslash.
#[tactic(auto, unfolding(crate::specs::Quoted::simple_escapes))]
fn simple_escape(letter: u8) -> Option<u8>
    ensures { result ≡ lookup (λ known. known == letter) simple_escapes }
{
    match letter {
        b'n' => Some(b'\n'),
        b't' => Some(b'\t'),
        b'r' => Some(b'\r'),
        b'a' => Some(7),
        b'b' => Some(8),
        b'f' => Some(12),
        b'v' => Some(11),
        b'\\' | b'\'' | b'"' | b'?' => Some(letter),
        _ => None,
    }
}

/// What the digits of an escape stand for.
#[tactic(auto, unfolding(crate::specs::Quoted::byte_of_value))]
fn numeric_escape(radix: u8, digits: &[u8]) -> Character
    requires { 0 < radix }
    ensures { result ≡ byte_of_value (digits_value radix digits.now) }
{
    match value_of(radix, digits) {
        Some(value) => {
            if value <= 255 {
                Character::Byte(value as u8)
            } else {
                Character::TooWide
            }
        }
        None => Character::TooWide,
    }
}

/// One to three octal digits.
#[tactic(auto, unfolding(crate::specs::Quoted::octal_escape))]
fn octal_escape(bytes: &[u8]) -> Spelled
    ensures value { result ≡ octal_escape bytes.now }
    ensures some { 0 < result.len }
    ensures within { result.len ≤ 1 + length bytes.now }
{
    let len = run_len(Class::OctalDigit, bytes).min(3);
    Spelled {
        character: numeric_escape(8, &bytes[..len]),
        len: 1 + len,
    }
}

/// Hexadecimal digits, behind the `x`.
#[tactic(auto, unfolding(crate::specs::Quoted::hex_escape))]
fn hex_escape(bytes: &[u8]) -> Spelled
    requires { length bytes.now < 2 ^ 63 }
    ensures value { result ≡ hex_escape bytes.now }
    ensures some { 0 < result.len }
    ensures within { result.len ≤ 2 + length bytes.now }
{
    let len = run_len(Class::HexDigit, bytes);
    if len == 0 {
        return Spelled {
            character: Character::Unknown,
            len: 2,
        };
    }
    Spelled {
        character: numeric_escape(16, &bytes[..len]),
        len: 2 + len,
    }
}

/// What an escape stands for, by the bytes behind its backslash.
#[tactic(auto, unfolding(crate::specs::Quoted::escape))]
fn escape(bytes: &[u8]) -> Spelled
    requires { length bytes.now < 2 ^ 63 }
    ensures value { result ≡ escape bytes.now }
    ensures some { 0 < result.len }
    ensures within { result.len ≤ 1 + length bytes.now }
{
    let [letter, rest @ ..] = bytes else {
        return Spelled {
            character: Character::Unknown,
            len: 1,
        };
    };
    if Class::OctalDigit.has(*letter) {
        return octal_escape(bytes);
    }
    if *letter == b'x' {
        return hex_escape(rest);
    }
    Spelled {
        character: simple_escape(*letter).map_or(Character::Unknown, Character::Byte),
        len: 2,
    }
}

/// What the bytes begin with: an escape, or a byte that stands for itself.
#[tactic(auto, unfolding(crate::specs::Quoted::character_at))]
fn character_at(bytes: &[u8]) -> Spelled
    requires { length bytes.now < 2 ^ 63 }
    ensures value { result ≡ character_at bytes.now }
    ensures some { 0 < result.len }
    ensures within { 0 < length bytes.now → result.len ≤ length bytes.now }
{
    match bytes {
        [] => Spelled {
            character: Character::Unknown,
            len: 1,
        },
        [b'\\', rest @ ..] => escape(rest),
        [byte, ..] => Spelled {
            character: Character::Byte(*byte),
            len: 1,
        },
    }
}

impl Character {
    fn is_too_wide(self) -> bool
        ensures { result ≡ is_too_wide self }
    {
        matches!(self, Character::TooWide)
    }

    fn is_unknown(self) -> bool
        ensures { result ≡ is_unknown self }
    {
        matches!(self, Character::Unknown)
    }
}

/// Why a literal is refused, by the bytes between its quotes, if it is.
#[tactic(auto, unfolding(crate::specs::Quoted::string_of))]
pub(crate) fn fault_of(body: &[u8]) -> Option<Kind>
    requires { length body.now < 2 ^ 63 }
    ensures { result ≡ result_err (string_of body.now) }
{
    let mut has_unknown = false;
    let mut place = 0;
    while place < body.len() {
        let next = character_at(&body[place..]);
        if next.character.is_too_wide() {
            return Some(Kind::NumberTooWide);
        }
        has_unknown |= next.character.is_unknown();
        place += next.len;
    }
    if has_unknown {
        Some(Kind::UnexpectedToken)
    } else {
        None
    }
}

/// The value of a character constant of one byte: the byte as a `char`, as an `int`.
#[tactic(auto, unfolding(crate::specs::Quoted::char_value))]
fn char_value(byte: u8) -> Num
    ensures { result ≡ char_value byte }
{
    let char = Num::from_bits(IntType::char(), u64::from(byte));
    convert(char, IntType::int())
}

/// The value of a character constant, by the bytes between its quotes, or why it is refused.
#[tactic(auto, unfolding(crate::specs::Quoted::char_of))]
pub(crate) fn char_of(body: &[u8]) -> Result<Num, Kind>
    requires { length body.now < 2 ^ 63 }
    ensures { result ≡ char_of body.now }
{
    if let Some(kind) = fault_of(body) {
        return Err(kind);
    }
    let first = character_at(body);
    match first.character {
        Character::Byte(byte) => {
            if first.len == body.len() {
                Ok(char_value(byte))
            } else {
                Err(Kind::UnexpectedToken)
            }
        }
        Character::TooWide => Err(Kind::UnexpectedToken),
        Character::Unknown => Err(Kind::UnexpectedToken),
    }
}

/// The bytes that a string stands for, by the bytes between its quotes.
pub(crate) fn bytes_of(alloc: Global, body: &[u8]) -> Result<Vec<u8>, NoMemory>
    requires { length body.now < 2 ^ 63 }
    ensures { IfOk result (λ bytes. bytes.items ≡ bytes_of (characters_of 0 body.now)) }
{
    let mut bytes = Vec::new(alloc);
    let mut place = 0;
    while place < body.len() {
        let next = character_at(&body[place..]);
        if let Character::Byte(byte) = next.character {
            bytes.push(byte)?;
        }
        place += next.len;
    }
    Ok(bytes)
}

/// The bytes that a string stands for, by the bytes between its quotes (C11 6.4.5); none where it is
/// refused.
#[tactic(auto, unfolding(crate::specs::Quoted::string_of))]
pub fn string_bytes(alloc: Global, body: &[u8]) -> Result<Option<Vec<u8>>, NoMemory>
    requires { length body.now < 2 ^ 63 }
    ensures { IfOk result (λ bytes. option_map (λ v. v.items) bytes ≡ result_ok (string_of body.now)) }
{
    if fault_of(body).is_some() {
        return Ok(None);
    }
    Ok(Some(bytes_of(alloc, body)?))
}
