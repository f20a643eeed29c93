//! The words of a declaration, and the type that they name (C11 6.7.2 p2).
ghost use Rattle.std.specs.Prelude.{◌≡◌, map};
ghost use Rattle.std.specs.Option.{option_map};
ghost use Rattle.std.specs.Map.{lookup};
ghost use Rattle.c_tree.specs.TypedViews.{type_view};
ghost use Rattle.c_typing.specs.Types.{unsigned_char, short, unsigned_short, says_nothing, is_atomic_word, atomic_by, word_number, times, same_words, named_by};
ghost use Rattle.type_context.specs.inner.Words.{named_view, row_view};

use crate::kinds::is_promoted;
use ak_words::IntType;
use c_tree::syntax::TypeWord;
use c_tree::typed::CType;

/// A type that words name.
#[derive(Clone, Copy, Debug)]
enum Named {
    Void,
    Char,
    UnsignedChar,
    Short,
    UnsignedShort,
    Int,
    UnsignedInt,
    Long,
    UnsignedLong,
    Mutex,
}

/// The words that name types.
const NAMING_WORDS: [TypeWord; 10] = [
    TypeWord::Void,
    TypeWord::Char,
    TypeWord::Short,
    TypeWord::Int,
    TypeWord::Long,
    TypeWord::Signed,
    TypeWord::Unsigned,
    TypeWord::SizeT,
    TypeWord::ThrdT,
    TypeWord::MtxT,
];

/// The lists of words that name a type, in whatever order they stand.
const TYPE_WORDS: [(&[TypeWord], Named); 30] = [
    (&[TypeWord::Void], Named::Void),
    (&[TypeWord::Char], Named::Char),
    (&[TypeWord::Signed, TypeWord::Char], Named::Char),
    (&[TypeWord::Unsigned, TypeWord::Char], Named::UnsignedChar),
    (&[TypeWord::Short], Named::Short),
    (&[TypeWord::Signed, TypeWord::Short], Named::Short),
    (&[TypeWord::Short, TypeWord::Int], Named::Short),
    (
        &[TypeWord::Signed, TypeWord::Short, TypeWord::Int],
        Named::Short,
    ),
    (&[TypeWord::Unsigned, TypeWord::Short], Named::UnsignedShort),
    (
        &[TypeWord::Unsigned, TypeWord::Short, TypeWord::Int],
        Named::UnsignedShort,
    ),
    (&[TypeWord::Int], Named::Int),
    (&[TypeWord::Signed], Named::Int),
    (&[TypeWord::Signed, TypeWord::Int], Named::Int),
    (&[TypeWord::Unsigned], Named::UnsignedInt),
    (&[TypeWord::Unsigned, TypeWord::Int], Named::UnsignedInt),
    (&[TypeWord::Long], Named::Long),
    (&[TypeWord::Signed, TypeWord::Long], Named::Long),
    (&[TypeWord::Long, TypeWord::Int], Named::Long),
    (
        &[TypeWord::Signed, TypeWord::Long, TypeWord::Int],
        Named::Long,
    ),
    (&[TypeWord::Unsigned, TypeWord::Long], Named::UnsignedLong),
    (
        &[TypeWord::Unsigned, TypeWord::Long, TypeWord::Int],
        Named::UnsignedLong,
    ),
    (&[TypeWord::Long, TypeWord::Long], Named::Long),
    (
        &[TypeWord::Signed, TypeWord::Long, TypeWord::Long],
        Named::Long,
    ),
    (
        &[TypeWord::Long, TypeWord::Long, TypeWord::Int],
        Named::Long,
    ),
    (
        &[
            TypeWord::Signed,
            TypeWord::Long,
            TypeWord::Long,
            TypeWord::Int,
        ],
        Named::Long,
    ),
    (
        &[TypeWord::Unsigned, TypeWord::Long, TypeWord::Long],
        Named::UnsignedLong,
    ),
    (
        &[
            TypeWord::Unsigned,
            TypeWord::Long,
            TypeWord::Long,
            TypeWord::Int,
        ],
        Named::UnsignedLong,
    ),
    (&[TypeWord::SizeT], Named::UnsignedLong),
    (&[TypeWord::ThrdT], Named::UnsignedLong),
    (&[TypeWord::MtxT], Named::Mutex),
];

fn unsigned_char() -> IntType
    ensures { result ≡ unsigned_char }
{
    IntType {
        signed: false,
        bits: 8,
    }
}

fn short() -> IntType
    ensures { result ≡ short }
{
    IntType {
        signed: true,
        bits: 16,
    }
}

fn unsigned_short() -> IntType
    ensures { result ≡ unsigned_short }
{
    IntType {
        signed: false,
        bits: 16,
    }
}

impl Named {
    fn ty(self) -> CType
        ensures { type_view result ≡ named_view self }
    {
        match self {
            Named::Void => CType::Void,
            Named::Char => CType::Int(IntType::char()),
            Named::UnsignedChar => CType::Int(unsigned_char()),
            Named::Short => CType::Int(short()),
            Named::UnsignedShort => CType::Int(unsigned_short()),
            Named::Int => CType::Int(IntType::int()),
            Named::UnsignedInt => CType::Int(IntType::unsigned_int()),
            Named::Long => CType::Int(IntType::long()),
            Named::UnsignedLong => CType::Int(IntType::unsigned_long()),
            Named::Mutex => CType::Mutex,
        }
    }
}

/// Whether it says nothing of the type, or only that it is atomic.
pub fn says_nothing(word: TypeWord) -> bool
    ensures { result ≡ says_nothing word }
{
    matches!(
        word,
        TypeWord::Const | TypeWord::Register | TypeWord::Auto | TypeWord::Atomic
    )
}

/// Whether it is `_Atomic`.
pub fn is_atomic_word(word: TypeWord) -> bool
    ensures { result ≡ is_atomic_word word }
{
    matches!(word, TypeWord::Atomic)
}

/// A type with `_Atomic` so often beside it: not at all, or once beside a number of 32 or 64 bits (C11 6.7.3 p3).
pub fn atomic_by(count: usize, t: CType) -> Option<CType>
    ensures { option_map type_view result ≡ atomic_by count (type_view t) }
{
    match (count, t) {
        (0, t) => Some(t),
        (1, CType::Int(t)) if is_promoted(t) => Some(CType::Atomic(t)),
        _ => None,
    }
}

// The number of a word, in the order of declaration.
fn word_number(word: TypeWord) -> u8
    ensures { result ≡ word_number word }
{
    word as u8
}

// How often a word stands in a list.
fn times(word: TypeWord, words: &[TypeWord]) -> usize
    ensures { result ≡ times word words.now }
{
    let mut n = 0;
    for other in words {
        if word_number(word) == word_number(*other) {
            n += 1;
        }
    }
    n
}

// Whether the two are the same words, in whatever order.
fn same_words(words: &[TypeWord], others: &[TypeWord]) -> bool
    ensures { result ≡ same_words words.now others.now }
{
    NAMING_WORDS
        .iter()
        .all(|word| times(*word, words) == times(*word, others))
}

// The type among these rows that the words name.
fn named_among(rows: &[(&[TypeWord], Named)], words: &[TypeWord]) -> Option<Named>
    ensures { option_map named_view result ≡ lookup (same_words words.now) (map row_view rows.now) }
{
    match rows {
        [] => None,
        [(row, named), rest @ ..] => {
            if same_words(words, row) {
                Some(*named)
            } else {
                named_among(rest, words)
            }
        }
    }
}

/// The type that words name, if they name one.
#[tactic(auto, unfolding(c_typing::specs::Types::type_words))]
pub fn named_by(words: &[TypeWord]) -> Option<CType>
    ensures { option_map type_view result ≡ named_by words.now }
{
    match named_among(&TYPE_WORDS, words) {
        Some(named) => Some(named.ty()),
        None => None,
    }
}
