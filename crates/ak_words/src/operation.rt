/// A binary operator on integers (C11 6.5.5 to 6.5.12).
#[derive(Clone, Copy, Debug, PartialEq, Eq, Hash)]
pub enum Op {
    /// `+`
    Add,
    /// `-`
    Sub,
    /// `*`
    Mul,
    /// `/`, whose quotient is truncated toward zero.
    Div,
    /// `%`
    Rem,
    /// `<<`
    Shl,
    /// `>>`, which rounds a negative number down (this project's profile).
    Shr,
    /// `&`
    And,
    /// `|`
    Or,
    /// `^`
    Xor,
    /// `==`
    Eq,
    /// `!=`
    Ne,
    /// `<`
    Lt,
    /// `<=`
    Le,
    /// `>`
    Gt,
    /// `>=`
    Ge,
}
