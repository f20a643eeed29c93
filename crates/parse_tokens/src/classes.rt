//! Classes of tokens.

ghost use Rattle.std.specs.Prelude.{◌≡◌};
ghost use Rattle.c_grammar.specs.Grammar.{height};
ghost use Rattle.c_grammar.specs.inner.Readers.{sort_of_kind};
ghost use Rattle.c_grammar.specs.inner.Tokens.{prefix_of_mark, step_of_mark, assign_of_mark, op_of_mark, binary_of_mark, type_of_word, storage_of_word, begins_type_word, begins_type, begins_expr, begins_simple};

use ak_words::Op;
use c_grammar::terminal::TerminalKind;
use c_lex::{Mark, Word};
use c_tree::syntax::{AssignOp, BinaryOp, PrefixOp, StepOp, Storage, TypeWord};

/// The prefix operator that a mark is (C11 6.5.3).
pub fn prefix_of(mark: Mark) -> Option<PrefixOp>
    ensures { result ≡ prefix_of_mark mark }
{
    match mark {
        Mark::Minus => Some(PrefixOp::Minus),
        Mark::Plus => Some(PrefixOp::Plus),
        Mark::Bang => Some(PrefixOp::Not),
        Mark::Tilde => Some(PrefixOp::Complement),
        Mark::Star => Some(PrefixOp::Deref),
        Mark::Ampersand => Some(PrefixOp::AddressOf),
        _ => None,
    }
}

/// The increment or decrement that a mark is (C11 6.5.2.4, 6.5.3.1).
pub fn step_of(mark: Mark) -> Option<StepOp>
    ensures { result ≡ step_of_mark mark }
{
    match mark {
        Mark::PlusPlus => Some(StepOp::Increment),
        Mark::MinusMinus => Some(StepOp::Decrement),
        _ => None,
    }
}

/// The assignment that a mark is (C11 6.5.16).
pub fn assign_of(mark: Mark) -> Option<AssignOp>
    ensures { result ≡ assign_of_mark mark }
{
    match mark {
        Mark::Assign => Some(AssignOp::Plain),
        Mark::PlusAssign => Some(AssignOp::Add),
        Mark::MinusAssign => Some(AssignOp::Sub),
        Mark::StarAssign => Some(AssignOp::Mul),
        Mark::SlashAssign => Some(AssignOp::Div),
        Mark::PercentAssign => Some(AssignOp::Rem),
        Mark::AmpersandAssign => Some(AssignOp::And),
        Mark::BarAssign => Some(AssignOp::Or),
        Mark::CaretAssign => Some(AssignOp::Xor),
        Mark::ShiftLeftAssign => Some(AssignOp::Shl),
        Mark::ShiftRightAssign => Some(AssignOp::Shr),
        _ => None,
    }
}

/// The binary operator that a mark is (C11 6.5.5 to 6.5.14).
pub fn op_of(mark: Mark) -> Option<BinaryOp>
    ensures { result ≡ op_of_mark mark }
{
    let op = match mark {
        Mark::Star => Op::Mul,
        Mark::Slash => Op::Div,
        Mark::Percent => Op::Rem,
        Mark::Plus => Op::Add,
        Mark::Minus => Op::Sub,
        Mark::ShiftLeft => Op::Shl,
        Mark::ShiftRight => Op::Shr,
        Mark::Less => Op::Lt,
        Mark::Greater => Op::Gt,
        Mark::LessEqual => Op::Le,
        Mark::GreaterEqual => Op::Ge,
        Mark::EqualEqual => Op::Eq,
        Mark::NotEqual => Op::Ne,
        Mark::Ampersand => Op::And,
        Mark::Caret => Op::Xor,
        Mark::Bar => Op::Or,
        Mark::AndAnd => return Some(BinaryOp::AndAnd),
        Mark::OrOr => return Some(BinaryOp::OrOr),
        _ => return None,
    };
    Some(BinaryOp::Value(op))
}

/// How loosely a binary operator binds, from 0.
pub fn height(op: BinaryOp) -> u32
    ensures { result ≡ height op }
{
    match op {
        BinaryOp::Value(Op::Mul | Op::Div | Op::Rem) => 0,
        BinaryOp::Value(Op::Add | Op::Sub) => 1,
        BinaryOp::Value(Op::Shl | Op::Shr) => 2,
        BinaryOp::Value(Op::Lt | Op::Gt | Op::Le | Op::Ge) => 3,
        BinaryOp::Value(Op::Eq | Op::Ne) => 4,
        BinaryOp::Value(Op::And) => 5,
        BinaryOp::Value(Op::Xor) => 6,
        BinaryOp::Value(Op::Or) => 7,
        BinaryOp::AndAnd => 8,
        BinaryOp::OrOr => 9,
    }
}

/// The binary operator of a height that a mark is.
pub fn binary_of(of: u32, mark: Mark) -> Option<BinaryOp>
    ensures { result ≡ binary_of_mark of mark }
{
    let op = op_of(mark)?;
    if height(op) == of { Some(op) } else { None }
}

/// The word of a type that a reserved word is (C11 6.7.2).
pub fn type_of(word: Word) -> Option<TypeWord>
    ensures { result ≡ type_of_word word }
{
    match word {
        Word::Void => Some(TypeWord::Void),
        Word::Char => Some(TypeWord::Char),
        Word::Short => Some(TypeWord::Short),
        Word::Int => Some(TypeWord::Int),
        Word::Long => Some(TypeWord::Long),
        Word::Signed => Some(TypeWord::Signed),
        Word::Unsigned => Some(TypeWord::Unsigned),
        Word::SizeT => Some(TypeWord::SizeT),
        Word::ThrdT => Some(TypeWord::ThrdT),
        Word::MtxT => Some(TypeWord::MtxT),
        Word::Const => Some(TypeWord::Const),
        Word::Register => Some(TypeWord::Register),
        Word::Auto => Some(TypeWord::Auto),
        Word::Atomic => Some(TypeWord::Atomic),
        _ => None,
    }
}

/// The storage that a reserved word is (C11 6.7.1, 6.7.4).
pub fn storage_of(word: Word) -> Option<Storage>
    ensures { result ≡ storage_of_word word }
{
    match word {
        Word::Static => Some(Storage::Static),
        Word::Inline => Some(Storage::Inline),
        _ => None,
    }
}

/// Whether the token is a word that a type begins with.
pub fn begins_type_word(kind: TerminalKind) -> bool
    ensures { result ≡ begins_type_word (sort_of_kind kind) }
{
    match kind {
        TerminalKind::Word(word) => {
            type_of(word).is_some() || word == Word::Struct || word == Word::Enum
        }
        _ => false,
    }
}

/// Whether a type begins with the token: such a word, or a type's name.
pub fn begins_type(kind: TerminalKind) -> bool
    ensures { result ≡ begins_type (sort_of_kind kind) }
{
    match kind {
        TerminalKind::TypeName => true,
        _ => begins_type_word(kind),
    }
}

/// Whether an expression begins with the token.
pub fn begins_expr(kind: TerminalKind) -> bool
    ensures { result ≡ begins_expr (sort_of_kind kind) }
{
    match kind {
        TerminalKind::Name | TerminalKind::Int(_) | TerminalKind::Char(_) | TerminalKind::Text =>
            true,
        TerminalKind::Word(word) => word == Word::Null || word == Word::Sizeof,
        TerminalKind::Mark(mark) => prefix_of(mark).is_some() || mark == Mark::OpenParen,
        TerminalKind::TypeName | TerminalKind::End => false,
    }
}

/// Whether a simple statement begins with the token.
pub fn begins_simple(kind: TerminalKind) -> bool
    ensures { result ≡ begins_simple (sort_of_kind kind) }
{
    match kind {
        TerminalKind::Mark(mark) => step_of(mark).is_some() || begins_expr(kind),
        _ => begins_expr(kind),
    }
}
