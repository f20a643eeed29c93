ghost use Rattle.std.specs.Prelude.{◌≡◌, ◌<◌, ◌≤◌, ℕ, List, ◌∷◌, Some, length, nat_eq, IfSome};
ghost use Rattle.c_lex.specs.Spellings.{word_text, word_of, mark_text, mark_of, library_names, is_one_of, is_taken};

use crate::token::{Mark, Word};

/// The reserved words.
const WORDS: [Word; 48] = [
    Word::Auto,
    Word::Break,
    Word::Case,
    Word::Char,
    Word::Const,
    Word::Continue,
    Word::Default,
    Word::Do,
    Word::Double,
    Word::Else,
    Word::Enum,
    Word::Extern,
    Word::Float,
    Word::For,
    Word::Goto,
    Word::If,
    Word::Inline,
    Word::Int,
    Word::Long,
    Word::Register,
    Word::Restrict,
    Word::Return,
    Word::Short,
    Word::Signed,
    Word::Sizeof,
    Word::Static,
    Word::Struct,
    Word::Switch,
    Word::Typedef,
    Word::Union,
    Word::Unsigned,
    Word::Void,
    Word::Volatile,
    Word::While,
    Word::Alignas,
    Word::Alignof,
    Word::Atomic,
    Word::Bool,
    Word::Complex,
    Word::Generic,
    Word::Imaginary,
    Word::Noreturn,
    Word::StaticAssert,
    Word::ThreadLocal,
    Word::SizeT,
    Word::ThrdT,
    Word::MtxT,
    Word::Null,
];

/// The marks, those of three bytes first, then those of two, then those of one.
const MARKS: [Mark; 46] = [
    Mark::Ellipsis,
    Mark::ShiftLeftAssign,
    Mark::ShiftRightAssign,
    Mark::ShiftLeft,
    Mark::ShiftRight,
    Mark::LessEqual,
    Mark::GreaterEqual,
    Mark::EqualEqual,
    Mark::NotEqual,
    Mark::AndAnd,
    Mark::OrOr,
    Mark::Arrow,
    Mark::PlusPlus,
    Mark::MinusMinus,
    Mark::PlusAssign,
    Mark::MinusAssign,
    Mark::StarAssign,
    Mark::SlashAssign,
    Mark::PercentAssign,
    Mark::AmpersandAssign,
    Mark::BarAssign,
    Mark::CaretAssign,
    Mark::Plus,
    Mark::Minus,
    Mark::Star,
    Mark::Slash,
    Mark::Percent,
    Mark::Ampersand,
    Mark::Bar,
    Mark::Caret,
    Mark::Tilde,
    Mark::Bang,
    Mark::Less,
    Mark::Greater,
    Mark::Assign,
    Mark::Question,
    Mark::Colon,
    Mark::Semicolon,
    Mark::Comma,
    Mark::Dot,
    Mark::OpenParen,
    Mark::CloseParen,
    Mark::OpenBracket,
    Mark::CloseBracket,
    Mark::OpenBrace,
    Mark::CloseBrace,
];

/// The names of the library, which `#define` may not take.
const LIBRARY_NAMES: [&[u8]; 23] = [
    b"printf",
    b"malloc",
    b"calloc",
    b"realloc",
    b"free",
    b"memcpy",
    b"thrd_create",
    b"thrd_join",
    b"mtx_init",
    b"mtx_lock",
    b"mtx_unlock",
    b"mtx_destroy",
    b"atomic_init",
    b"atomic_store",
    b"atomic_load",
    b"atomic_fetch_add",
    b"atomic_fetch_sub",
    b"atomic_exchange",
    b"atomic_compare_exchange_strong",
    b"atomic_compare_exchange_weak",
    b"mtx_plain",
    b"thrd_success",
    b"thrd_error",
];

/// The bytes of a reserved word.
#[tactic(auto, unfolding(crate::specs::Spellings::word_text))]
fn word_bytes(word: Word) -> &'static [u8]
    ensures { result.now ≡ word_text word }
{
    match word {
        Word::Auto => b"auto",
        Word::Break => b"break",
        Word::Case => b"case",
        Word::Char => b"char",
        Word::Const => b"const",
        Word::Continue => b"continue",
        Word::Default => b"default",
        Word::Do => b"do",
        Word::Double => b"double",
        Word::Else => b"else",
        Word::Enum => b"enum",
        Word::Extern => b"extern",
        Word::Float => b"float",
        Word::For => b"for",
        Word::Goto => b"goto",
        Word::If => b"if",
        Word::Inline => b"inline",
        Word::Int => b"int",
        Word::Long => b"long",
        Word::Register => b"register",
        Word::Restrict => b"restrict",
        Word::Return => b"return",
        Word::Short => b"short",
        Word::Signed => b"signed",
        Word::Sizeof => b"sizeof",
        Word::Static => b"static",
        Word::Struct => b"struct",
        Word::Switch => b"switch",
        Word::Typedef => b"typedef",
        Word::Union => b"union",
        Word::Unsigned => b"unsigned",
        Word::Void => b"void",
        Word::Volatile => b"volatile",
        Word::While => b"while",
        Word::Alignas => b"_Alignas",
        Word::Alignof => b"_Alignof",
        Word::Atomic => b"_Atomic",
        Word::Bool => b"_Bool",
        Word::Complex => b"_Complex",
        Word::Generic => b"_Generic",
        Word::Imaginary => b"_Imaginary",
        Word::Noreturn => b"_Noreturn",
        Word::StaticAssert => b"_Static_assert",
        Word::ThreadLocal => b"_Thread_local",
        Word::SizeT => b"size_t",
        Word::ThrdT => b"thrd_t",
        Word::MtxT => b"mtx_t",
        Word::Null => b"NULL",
    }
}

/// The bytes of a mark.
#[tactic(auto, unfolding(crate::specs::Spellings::mark_text))]
pub(crate) fn mark_bytes(mark: Mark) -> &'static [u8]
    ensures text { result.now ≡ mark_text mark }
    ensures some { 0 < length result.now }
{
    match mark {
        Mark::Ellipsis => b"...",
        Mark::ShiftLeft => b"<<",
        Mark::ShiftRight => b">>",
        Mark::LessEqual => b"<=",
        Mark::GreaterEqual => b">=",
        Mark::EqualEqual => b"==",
        Mark::NotEqual => b"!=",
        Mark::AndAnd => b"&&",
        Mark::OrOr => b"||",
        Mark::Arrow => b"->",
        Mark::PlusPlus => b"++",
        Mark::MinusMinus => b"--",
        Mark::PlusAssign => b"+=",
        Mark::MinusAssign => b"-=",
        Mark::StarAssign => b"*=",
        Mark::SlashAssign => b"/=",
        Mark::PercentAssign => b"%=",
        Mark::AmpersandAssign => b"&=",
        Mark::BarAssign => b"|=",
        Mark::CaretAssign => b"^=",
        Mark::ShiftLeftAssign => b"<<=",
        Mark::ShiftRightAssign => b">>=",
        Mark::Plus => b"+",
        Mark::Minus => b"-",
        Mark::Star => b"*",
        Mark::Slash => b"/",
        Mark::Percent => b"%",
        Mark::Ampersand => b"&",
        Mark::Bar => b"|",
        Mark::Caret => b"^",
        Mark::Tilde => b"~",
        Mark::Bang => b"!",
        Mark::Less => b"<",
        Mark::Greater => b">",
        Mark::Assign => b"=",
        Mark::Question => b"?",
        Mark::Colon => b":",
        Mark::Semicolon => b";",
        Mark::Comma => b",",
        Mark::Dot => b".",
        Mark::OpenParen => b"(",
        Mark::CloseParen => b")",
        Mark::OpenBracket => b"[",
        Mark::CloseBracket => b"]",
        Mark::OpenBrace => b"{",
        Mark::CloseBrace => b"}",
    }
}

/// The reserved word that the bytes spell, if they do.
#[tactic(auto, unfolding(crate::specs::Spellings::word_of, crate::specs::Spellings::all_words))]
pub(crate) fn word_of(run: &[u8]) -> Option<Word>
    ensures { result ≡ word_of run.now }
{
    for word in WORDS {
        if word_bytes(word) == run {
            return Some(word);
        }
    }
    None
}

// The mark of a byte that begins no other mark. Most marks of a text are such.
#[tactic(auto, unfolding(crate::specs::Spellings::mark_of, crate::specs::Spellings::longest_marks_first, crate::specs::Spellings::mark_text))]
fn sole_mark(first: u8) -> Option<Mark>
    ensures mark { IfSome result (λ mark. (rest : List ℕ) → mark_of (first ∷ rest) ≡ Some mark) }
    ensures one { IfSome result (λ mark. length (mark_text mark) ≡ 1) }
{
    match first {
        b'~' => Some(Mark::Tilde),
        b'?' => Some(Mark::Question),
        b':' => Some(Mark::Colon),
        b';' => Some(Mark::Semicolon),
        b',' => Some(Mark::Comma),
        b'(' => Some(Mark::OpenParen),
        b')' => Some(Mark::CloseParen),
        b'[' => Some(Mark::OpenBracket),
        b']' => Some(Mark::CloseBracket),
        b'{' => Some(Mark::OpenBrace),
        b'}' => Some(Mark::CloseBrace),
        _ => None,
    }
}

// The first of the marks that the bytes begin with, the longest first.
#[tactic(auto, unfolding(crate::specs::Spellings::mark_of, crate::specs::Spellings::longest_marks_first))]
fn longest_mark(bytes: &[u8]) -> Option<Mark>
    ensures mark { result ≡ mark_of bytes.now }
    ensures within { IfSome result (λ mark. length (mark_text mark) ≤ length bytes.now) }
{
    for mark in MARKS {
        if bytes.starts_with(mark_bytes(mark)) {
            return Some(mark);
        }
    }
    None
}

/// The longest mark that the bytes begin with, if they begin with one.
pub(crate) fn mark_of(bytes: &[u8]) -> Option<Mark>
    ensures mark { result ≡ mark_of bytes.now }
    ensures within { IfSome result (λ mark. length (mark_text mark) ≤ length bytes.now) }
{
    let sole = match bytes.first() {
        Some(first) => sole_mark(*first),
        None => None,
    };
    match sole {
        Some(mark) => Some(mark),
        None => longest_mark(bytes),
    }
}

/// Whether `#define` may not take the name.
#[tactic(auto, unfolding(crate::specs::Spellings::is_taken, crate::specs::Spellings::library_names))]
pub(crate) fn is_taken(name: &[u8]) -> bool
    ensures { result ≡ is_taken name.now }
{
    word_of(name).is_some() || LIBRARY_NAMES.contains(&name)
}
