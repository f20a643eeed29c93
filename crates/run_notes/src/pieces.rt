//! Pieces of a text behind the bytes that are there, in room that is there.
ghost use Rattle.std.specs.Prelude.{◌≡◌, ◌+◌, ◌≤◌, ◌++◌, length, vec_len, vec_capacity};

use itoa::{Buffer, Integer};

/// Writes these bytes.
pub fn push_bytes(text: &mut Vec<u8>, bytes: &[u8])
    requires { vec_len text.old + length bytes.now ≤ vec_capacity text.old }
    ensures items { text.new.items ≡ text.old.items ++ bytes.now }
    ensures len { vec_len text.new ≡ vec_len text.old + length bytes.now }
    ensures capacity { vec_capacity text.new ≡ vec_capacity text.old }
{
    for byte in bytes {
        text.push_reserved(*byte);
    }
}

/// Writes a number in decimal digits.
pub fn push_decimal<I: Integer>(text: &mut Vec<u8>, number: I)
    requires { vec_len text.old + I.MAX_STR_LEN ≤ vec_capacity text.old }
    ensures items { text.new.items ≡ text.old.items ++ I.text number }
    ensures len { vec_len text.new ≤ vec_len text.old + I.MAX_STR_LEN }
    ensures capacity { vec_capacity text.new ≡ vec_capacity text.old }
{
    let mut buffer = Buffer::new();
    push_bytes(text, buffer.format(number).as_bytes());
}
