//! The operations on values whose operands are evaluated first.

use ak_words::Op;
use c_tree::typed::CType;
use std::rc::Rc;

/// An operation on one value.
pub enum Unary {
    /// A conversion to a type.
    Converts(Rc<CType>),
    /// Whether it's 0 or null.
    Negates,
    /// Whether it isn't.
    Tests,
    /// The pointer to a member at this offset.
    Selects(u32),
}

impl Drop for Unary {
    fn drop(self) {
        match self {
            Self::Converts(_) => {}
            Self::Negates => {}
            Self::Tests => {}
            Self::Selects(_) => {}
        }
    }
}

/// An operation on two values.
#[derive(Clone, Copy, PartialEq, Eq)]
pub enum Binary {
    /// An operator on numbers.
    Numbers(Op),
    /// A pointer plus a number of elements of this size.
    Forward(u32),
    /// A pointer minus a number of elements of this size.
    Backward(u32),
    /// The elements of this size between two pointers.
    Distance(u32),
    /// A comparison of two pointers.
    Pointers(Op),
}
