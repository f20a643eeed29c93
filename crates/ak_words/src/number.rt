ghost use Rattle.ak_words.specs.IntType.{IsInRange};

use crate::int_type::IntType;

/// A number of a C integer type.
#[derive(Clone, Copy, Debug, PartialEq, Eq, Hash)]
pub struct Num {
    /// The type.
    pub ty: IntType,
    /// The number, which is in the range of its type.
    pub value: i128,
    pub ghost in_range: { IsInRange ty value },
}

impl Num {
    ghost use Rattle.std.specs.Prelude.{◌≡◌, ◌^◌, ◌<◌, pos};
    ghost use Rattle.ak_words.specs.IntType.{int};
    ghost use Rattle.ak_words.specs.Num.{num};
    ghost use Rattle.ak_words.specs.Wrapped.{bit_pattern, wrapped_value};

    /// What a whole number becomes at a type: the number of the type that is congruent to it
    /// modulo 2^bits (C11 6.3.1.3; for signed types this project's profile).
    pub fn wrapping(ty: IntType, value: i128) -> Num
        ensures { result ≡ num ty value }
    {
        Num {
            ty,
            value: ty.from_pattern(ty.bit_pattern(value)),
        }
    }

    /// The number of type `ty` that has the lowest of these bits in two's complement, as many as
    /// the type has.
    pub fn from_bits(ty: IntType, bits: u64) -> Num
        ensures value { result ≡ num ty (pos bits) }
        ensures round_trip { bits < 2 ^ ty.bits → bit_pattern ty result.value ≡ bits }
    {
        Num::wrapping(ty, i128::from(bits))
    }

    /// The number's bits in two's complement, as many as its type has.
    pub fn to_bits(self) -> u64
        ensures value { result ≡ bit_pattern self.ty self.value }
        ensures round_trip { num self.ty (pos result) ≡ self }
    {
        self.ty.bit_pattern(self.value)
    }

    /// An `int`.
    pub fn int(value: i32) -> Num
        ensures number { result ≡ num int value }
        ensures value { result.value ≡ value }
    {
        Num {
            ty: IntType::INT,
            value: i128::from(value),
        }
    }

    /// The number converted to `int`; an `int` is given as it is.
    pub fn to_int(self) -> i32
        ensures value { result ≡ wrapped_value int self.value }
        ensures kept { IsInRange int self.value → result ≡ self.value }
    {
        Num::wrapping(IntType::INT, self.value).value as i32
    }
}
