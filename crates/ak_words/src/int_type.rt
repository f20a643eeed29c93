ghost use Rattle.std.specs.Prelude.{IsTrue};
ghost use Rattle.ak_words.specs.Width.{is_width};

/// An integer type of C, by its sign and its width in bits (C11 6.2.5).
#[derive(Clone, Copy, Debug, PartialEq, Eq, Hash)]
pub struct IntType {
    /// Whether the type holds negative numbers.
    pub signed: bool,
    /// The width: 8, 16, 32 or 64.
    pub bits: u8,
    pub ghost known_width: { IsTrue (is_width bits) },
}

impl IntType {
    ghost use Rattle.std.specs.Prelude.{◌≡◌, ◌^◌, ◌<◌, ◌↔◌, pos};
    ghost use Rattle.ak_words.specs.IntType.{char, int, unsigned_int, long, unsigned_long, IsInRange, is_held};
    ghost use Rattle.ak_words.specs.Wrapped.{bit_pattern, wrapped_value};

    /// `char`, which is signed (this project's profile).
    pub const CHAR: IntType = IntType {
        signed: true,
        bits: 8,
    };

    /// `int`.
    pub const INT: IntType = IntType {
        signed: true,
        bits: 32,
    };

    /// `unsigned int`.
    pub const UNSIGNED_INT: IntType = IntType {
        signed: false,
        bits: 32,
    };

    /// `long`.
    pub const LONG: IntType = IntType {
        signed: true,
        bits: 64,
    };

    /// `unsigned long`, which is also `size_t`.
    pub const UNSIGNED_LONG: IntType = IntType {
        signed: false,
        bits: 64,
    };

    /// `char`, by a clause.
    pub fn char() -> IntType
        ensures { result ≡ char }
    {
        IntType::CHAR
    }

    /// `int`, by a clause.
    pub fn int() -> IntType
        ensures { result ≡ int }
    {
        IntType::INT
    }

    /// `unsigned int`, by a clause.
    pub fn unsigned_int() -> IntType
        ensures { result ≡ unsigned_int }
    {
        IntType::UNSIGNED_INT
    }

    /// `long`, by a clause.
    pub fn long() -> IntType
        ensures { result ≡ long }
    {
        IntType::LONG
    }

    /// `unsigned long`, by a clause.
    pub fn unsigned_long() -> IntType
        ensures { result ≡ unsigned_long }
    {
        IntType::UNSIGNED_LONG
    }

    /// Whether the type holds a number.
    pub fn holds(self, value: i128) -> bool
        ensures value { result ≡ is_held self value }
        ensures in_range { IsTrue result ↔ IsInRange self value }
    {
        let half = 1i128 << (self.bits - 1);
        if self.signed {
            -half <= value && value < half
        } else {
            0 <= value && value < 2 * half
        }
    }

    /// The low bits of `value` in two's complement, as many as the type has.
    pub fn bit_pattern(self, value: i128) -> u64
        ensures { result ≡ bit_pattern self value }
    {
        let mask = (1u128 << self.bits) - 1;
        (value.cast_unsigned() & mask) as u64
    }

    /// The number of this type that has these bits in two's complement.
    pub(crate) fn from_pattern(self, low: u64) -> i128
        requires { low < 2 ^ self.bits }
        ensures value { result ≡ wrapped_value self (pos low) }
        ensures in_range { IsInRange self result }
    {
        let half = 1i128 << (self.bits - 1);
        let low = i128::from(low);
        if self.signed && low >= half {
            low - 2 * half
        } else {
            low
        }
    }
}
