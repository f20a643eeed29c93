//! Numbers of C as words of 64 bits: what a register of the machine holds of a number, and each operation of C on two such words.
//! Promises upward: each operation on words equals that of ak_words on the numbers that they stand for.
//! Stands on ak_words.
#![tactic(auto)]

mod applying;
mod arithmetic;
mod bitwise;
mod comparing;
mod dividing;
mod shifting;
mod words;

pub use applying::apply;
pub use arithmetic::{add, mul, sub};
pub use bitwise::{and_bits, or_bits, xor_bits};
pub use comparing::{at_most, below, equal, unequal};
pub use dividing::{divide, remainder};
pub use shifting::{shift_left, shift_right};
pub use words::{number_of_word, number_word, word_in};
