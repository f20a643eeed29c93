//! Operations on C integers, against what gcc's programs print.
use ak_words::{IntType, NoMemory, Num, Op, Rule, apply, common, convert, promote, wrap_apply};
use std::test::Fail;

const UNSIGNED_CHAR: IntType = IntType {
    signed: false,
    bits: 8,
};

const SHORT: IntType = IntType {
    signed: true,
    bits: 16,
};

const INT_MIN: i128 = -2147483648;

const LONG_MIN: i128 = -9223372036854775808;

// The values are those that gcc's programs print.
#[test]
fn operations_without_a_broken_rule(rt: HostRuntime) {
    for (op, ty, a, b, want) in [
        (Op::Add, IntType::INT, 2147483646, 1, 2147483647),
        (Op::Add, IntType::UNSIGNED_INT, 4294967295, 1, 0),
        (Op::Sub, IntType::UNSIGNED_INT, 0, 1, 4294967295),
        (Op::Mul, IntType::UNSIGNED_INT, 65536, 65537, 65536),
        (
            Op::Mul,
            IntType::UNSIGNED_LONG,
            18446744073709551615,
            18446744073709551615,
            1,
        ),
        (Op::Div, IntType::INT, -7, 2, -3),
        (Op::Rem, IntType::INT, -7, 2, -1),
        (Op::Div, IntType::INT, 7, -2, -3),
        (Op::Rem, IntType::INT, 7, -2, 1),
        (Op::Shl, IntType::INT, 1, 30, 1073741824),
        (Op::Shl, IntType::UNSIGNED_INT, 3, 31, 2147483648),
        (Op::Shl, IntType::UNSIGNED_LONG, 3, 63, 9223372036854775808),
        (Op::Shr, IntType::INT, -8, 1, -4),
        (Op::Shr, IntType::LONG, LONG_MIN, 63, -1),
        (Op::Shr, IntType::UNSIGNED_INT, 4294967288, 1, 2147483644),
        (Op::And, IntType::INT, -2, 255, 254),
        (Op::Or, IntType::INT, -256, 15, -241),
        (Op::Xor, IntType::INT, -1, 5, -6),
        (Op::Xor, IntType::UNSIGNED_INT, 4294967295, 5, 4294967290),
        (Op::Eq, IntType::INT, 3, 3, 1),
        (Op::Ne, IntType::INT, 3, 3, 0),
        (Op::Lt, IntType::INT, -1, 0, 1),
        (Op::Lt, IntType::UNSIGNED_INT, 4294967295, 0, 0),
        (Op::Le, IntType::INT, 3, 3, 1),
        (Op::Gt, IntType::INT, 3, 3, 0),
        (Op::Ge, IntType::INT, 3, 3, 1),
    ] {
        let a = Num::wrapping(ty, a);
        let b = Num::wrapping(ty, b);
        assert_eq!(rt; apply(op, a, b).map(|n| n.value), Ok(want), "{op:?}");
        assert_eq!(rt; wrap_apply(op, a, b).value, want, "{op:?}");
    }
}

// The rules are those of C11 6.5; the last column is what two's complement hardware gives.
#[test]
fn operations_with_a_broken_rule(rt: HostRuntime) {
    for (op, ty, a, b, rule, instead) in [
        (Op::Add, IntType::INT, 2147483647, 1, Rule::C1, INT_MIN),
        (Op::Sub, IntType::INT, INT_MIN, 1, Rule::C1, 2147483647),
        (
            Op::Mul,
            IntType::LONG,
            4294967296,
            2147483648,
            Rule::C1,
            LONG_MIN,
        ),
        (Op::Div, IntType::INT, INT_MIN, -1, Rule::C1, INT_MIN),
        (Op::Rem, IntType::INT, INT_MIN, -1, Rule::C1, 0),
        (Op::Div, IntType::INT, 1, 0, Rule::C2, 0),
        (Op::Rem, IntType::UNSIGNED_INT, 1, 0, Rule::C2, 0),
        (Op::Shl, IntType::INT, 1, 31, Rule::C3, INT_MIN),
        (Op::Shl, IntType::INT, -1, 1, Rule::C3, -2),
        (Op::Shl, IntType::INT, 1, 32, Rule::C3, 1),
        (Op::Shl, IntType::UNSIGNED_LONG, 1, 64, Rule::C3, 1),
        (Op::Shl, IntType::INT, 1, -1, Rule::C3, INT_MIN),
        (Op::Shr, IntType::LONG, -8, 65, Rule::C3, -4),
        (Op::Shr, IntType::INT, INT_MIN, -1, Rule::C3, -1),
    ] {
        let a = Num::wrapping(ty, a);
        let b = Num::wrapping(ty, b);
        assert_eq!(rt; apply(op, a, b).map(|n| n.value), Err(rule), "{op:?}");
        assert_eq!(rt; wrap_apply(op, a, b).value, instead, "{op:?}");
    }
}

#[test]
fn conversions(rt: HostRuntime) {
    for (from, value, to, want) in [
        (IntType::INT, 300, UNSIGNED_CHAR, 44),
        (IntType::INT, 200, IntType::CHAR, -56),
        (IntType::INT, 65535, SHORT, -1),
        (IntType::INT, -1, IntType::UNSIGNED_INT, 4294967295),
        (IntType::UNSIGNED_INT, 4294967295, IntType::INT, -1),
        (IntType::LONG, 4294967301, IntType::INT, 5),
        (
            IntType::LONG,
            -1,
            IntType::UNSIGNED_LONG,
            18446744073709551615,
        ),
    ] {
        let number = convert(Num::wrapping(from, value), to);
        assert_eq!(rt; number.value, want);
        assert_eq!(rt; Num::from_bits(to, number.to_bits()), number);
    }
    assert_eq!(rt; Num::int(-56).to_bits(), 4294967240);
    assert_eq!(rt; Num::wrapping(IntType::LONG, 4294967301).to_int(), 5);
    assert!(rt; SHORT.holds(-32768) && !SHORT.holds(32768));
}

#[test]
fn types(rt: HostRuntime) {
    for (a, b, want) in [
        (IntType::char(), SHORT, IntType::int()),
        (UNSIGNED_CHAR, UNSIGNED_CHAR, IntType::int()),
        (
            IntType::int(),
            IntType::unsigned_int(),
            IntType::unsigned_int(),
        ),
        (IntType::unsigned_int(), IntType::long(), IntType::long()),
        (
            IntType::unsigned_long(),
            IntType::long(),
            IntType::unsigned_long(),
        ),
    ] {
        assert_eq!(rt; common(a, b), want);
        assert_eq!(rt; common(b, a), want);
    }
    assert_eq!(rt; promote(SHORT), IntType::int());
    assert_eq!(rt; promote(IntType::unsigned_int()), IntType::unsigned_int());
}

#[test]
fn want_of_memory_in_words(rt: HostRuntime) -> Result<(), Fail> {
    let words = format!(in rt.alloc(); "{NoMemory}")?;
    assert_eq!(rt; words.as_str(), "out of memory");
    Ok(())
}
