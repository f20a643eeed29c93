//! Arithmetic and comparison of pointers (C11 6.5.6, 6.5.8, 6.5.9).

ghost use Rattle.std.specs.Prelude.{◌≡◌, ◌<◌, ◌^◌, ◌+◌, pos, ◌*ℤ◌, neg_ℤ, unsigned_abs, Ok, Err, IfOk};
ghost use Rattle.block_store.specs.Pointers.{is_usable, tested, moved, indexed, distance, compared, related, difference, in_elements, is_other_than_null, is_same};

use ak_words::{NoMemory, Num, Op, Rule};
use block_store::{Ptr, Store};

// Whether a pointer is null or points into a live block.
fn is_usable(store: &Store, p: Ptr) -> bool
    ensures { result ≡ is_usable store.now p }
{
    match p {
        Ptr::Null => true,
        Ptr::To { block, offset: _ } => match store.live_size(block) {
            Some(_) => true,
            None => false,
        },
    }
}

// Whether a pointer isn't null.
fn is_other_than_null(p: Ptr) -> bool
    ensures { result ≡ is_other_than_null p }
{
    match p {
        Ptr::Null => false,
        Ptr::To { .. } => true,
    }
}

/// Whether a pointer isn't null, or C9 of a dead block.
pub fn tested(store: &Store, p: Ptr) -> Result<bool, Rule>
    ensures { result ≡ tested store.now p }
{
    if is_usable(store, p) {
        Ok(is_other_than_null(p))
    } else {
        Err(Rule::C9)
    }
}

/// A pointer moved by a whole number of bytes: C9 of a dead block, and then C7 outside the block.
pub fn moved(store: &Store, p: Ptr, by: i128) -> Result<Ptr, Rule>
    requires { unsigned_abs by < 2 ^ 100 }
    ensures { result ≡ moved store.now p by }
{
    match p {
        Ptr::Null => {
            if by == 0 {
                Ok(Ptr::Null)
            } else {
                Err(Rule::C7)
            }
        }
        Ptr::To { block, offset } => match store.live_size(block) {
            None => Err(Rule::C9),
            Some(size) => {
                let to = i128::from(offset) + by;
                if 0 <= to && to <= i128::from(size) {
                    Ok(Ptr::To {
                        block,
                        offset: to as u32,
                    })
                } else {
                    Err(Rule::C7)
                }
            }
        },
    }
}

// A number's value.
fn exact(n: Num) -> i128
    ensures value { result ≡ n.value }
    ensures bound { unsigned_abs result < 2 ^ 65 }
{
    n.value
}

// The same with the other sign.
fn negated(n: Num) -> i128
    ensures value { result ≡ neg_ℤ n.value }
    ensures bound { unsigned_abs result < 2 ^ 65 }
{
    -n.value
}

// So many elements of this size, in bytes.
fn bytes_of(count: i128, size: u32) -> i128
    requires { unsigned_abs count < 2 ^ 65 }
    ensures bytes { result ≡ count *ℤ pos size }
    ensures bound { unsigned_abs result < 2 ^ 100 }
{
    count * i128::from(size)
}

/// A pointer plus a number of elements of this size.
pub fn forward(store: &Store, p: Ptr, n: Num, size: u32) -> Result<Ptr, Rule>
    ensures { result ≡ indexed store.now p n.value size }
{
    moved(store, p, bytes_of(exact(n), size))
}

/// A pointer minus a number of elements of this size, which is taken as a whole number.
pub fn backward(store: &Store, p: Ptr, n: Num, size: u32) -> Result<Ptr, Rule>
    ensures { result ≡ indexed store.now p (neg_ℤ n.value) size }
{
    moved(store, p, bytes_of(negated(n), size))
}

// Whether two pointers are the same.
fn is_same(p: Ptr, q: Ptr) -> bool
    ensures { result ≡ is_same p q }
{
    match (p, q) {
        (Ptr::Null, Ptr::Null) => true,
        (
            Ptr::To {
                block: b,
                offset: o,
            },
            Ptr::To {
                block: c,
                offset: u,
            },
        ) => b == c && o == u,
        (_, _) => false,
    }
}

// How far p stands behind q, or C8.
fn distance(p: Ptr, q: Ptr) -> Result<i64, Rule>
    ensures distance { result ≡ distance p q }
{
    match (p, q) {
        (Ptr::Null, Ptr::Null) => Ok(0),
        (
            Ptr::To {
                block: b,
                offset: o,
            },
            Ptr::To {
                block: c,
                offset: u,
            },
        ) => {
            if b == c {
                Ok(i64::from(o) - i64::from(u))
            } else {
                Err(Rule::C8)
            }
        }
        (_, _) => Err(Rule::C8),
    }
}

// What a comparison of two usable pointers answers.
fn related(op: Op, p: Ptr, q: Ptr) -> Result<bool, Rule>
    ensures { result ≡ related op p q }
{
    match op {
        Op::Eq => Ok(is_same(p, q)),
        Op::Ne => Ok(!is_same(p, q)),
        Op::Lt => match distance(p, q) {
            Ok(z) => Ok(z < 0),
            Err(rule) => Err(rule),
        },
        Op::Ge => match distance(p, q) {
            Ok(z) => Ok(!(z < 0)),
            Err(rule) => Err(rule),
        },
        Op::Gt => match distance(q, p) {
            Ok(z) => Ok(z < 0),
            Err(rule) => Err(rule),
        },
        Op::Le => match distance(q, p) {
            Ok(z) => Ok(!(z < 0)),
            Err(rule) => Err(rule),
        },
        _ => Err(Rule::C8),
    }
}

/// A comparison of two pointers: C9 of a dead block, and then C8.
pub fn compared(store: &Store, op: Op, p: Ptr, q: Ptr) -> Result<bool, Rule>
    ensures { result ≡ compared store.now op p q }
{
    if is_usable(store, p) && is_usable(store, q) {
        related(op, p, q)
    } else {
        Err(Rule::C9)
    }
}

/// The elements of this size between two pointers: C9 of a dead block, and then C8. A size of 0, which no element has,
/// is answered as want of memory.
pub fn difference(store: &Store, p: Ptr, q: Ptr, size: u32) -> Result<Result<i64, Rule>, NoMemory>
    ensures { IfOk result (λ answer. answer ≡ difference store.now p q size) }
{
    if size == 0 {
        return Err(NoMemory);
    }
    if is_usable(store, p) && is_usable(store, q) {
        Ok(in_elements(distance(p, q), size))
    } else {
        Ok(Err(Rule::C9))
    }
}

// A distance in elements of this size, or C8.
fn in_elements(distance: Result<i64, Rule>, size: u32) -> Result<i64, Rule>
    requires { 0 < size }
    ensures { result ≡ in_elements size distance }
{
    match distance {
        Ok(z) => {
            if z.unsigned_abs() % u64::from(size) == 0 {
                Ok(z.div_euclid(i64::from(size)))
            } else {
                Err(Rule::C8)
            }
        }
        Err(rule) => Err(rule),
    }
}
