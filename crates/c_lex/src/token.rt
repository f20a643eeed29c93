ghost use Rattle.std.specs.Prelude.{◌≡◌, slice_get, Some};
ghost use Rattle.c_lex.specs.Spellings.{all_words, all_marks};

use ak_words::Num;

/// A reserved word: the 44 keywords of C11 6.4.1 in its order, and then this project's four.
#[derive(Clone, Copy, Debug, PartialEq, Eq)]
pub enum Word {
    /// `auto`
    Auto,
    /// `break`
    Break,
    /// `case`
    Case,
    /// `char`
    Char,
    /// `const`
    Const,
    /// `continue`
    Continue,
    /// `default`
    Default,
    /// `do`
    Do,
    /// `double`
    Double,
    /// `else`
    Else,
    /// `enum`
    Enum,
    /// `extern`
    Extern,
    /// `float`
    Float,
    /// `for`
    For,
    /// `goto`
    Goto,
    /// `if`
    If,
    /// `inline`
    Inline,
    /// `int`
    Int,
    /// `long`
    Long,
    /// `register`
    Register,
    /// `restrict`
    Restrict,
    /// `return`
    Return,
    /// `short`
    Short,
    /// `signed`
    Signed,
    /// `sizeof`
    Sizeof,
    /// `static`
    Static,
    /// `struct`
    Struct,
    /// `switch`
    Switch,
    /// `typedef`
    Typedef,
    /// `union`
    Union,
    /// `unsigned`
    Unsigned,
    /// `void`
    Void,
    /// `volatile`
    Volatile,
    /// `while`
    While,
    /// `_Alignas`
    Alignas,
    /// `_Alignof`
    Alignof,
    /// `_Atomic`
    Atomic,
    /// `_Bool`
    Bool,
    /// `_Complex`
    Complex,
    /// `_Generic`
    Generic,
    /// `_Imaginary`
    Imaginary,
    /// `_Noreturn`
    Noreturn,
    /// `_Static_assert`
    StaticAssert,
    /// `_Thread_local`
    ThreadLocal,
    /// `size_t`
    SizeT,
    /// `thrd_t`
    ThrdT,
    /// `mtx_t`
    MtxT,
    /// `NULL`
    Null,
}

impl Word {
    /// The word's place in the list of the reserved words, from 0.
    #[tactic(auto, unfolding(crate::specs::Spellings::all_words))]
    pub fn number(self) -> u8
        ensures { slice_get all_words result ≡ Some self }
    {
        self as u8
    }
}

/// A punctuator of C11 6.4.6 that the language has.
#[derive(Clone, Copy, Debug, PartialEq, Eq)]
pub enum Mark {
    /// `...`
    Ellipsis,
    /// `<<`
    ShiftLeft,
    /// `>>`
    ShiftRight,
    /// `<=`
    LessEqual,
    /// `>=`
    GreaterEqual,
    /// `==`
    EqualEqual,
    /// `!=`
    NotEqual,
    /// `&&`
    AndAnd,
    /// `||`
    OrOr,
    /// `->`
    Arrow,
    /// `++`
    PlusPlus,
    /// `--`
    MinusMinus,
    /// `+=`
    PlusAssign,
    /// `-=`
    MinusAssign,
    /// `*=`
    StarAssign,
    /// `/=`
    SlashAssign,
    /// `%=`
    PercentAssign,
    /// `&=`
    AmpersandAssign,
    /// `|=`
    BarAssign,
    /// `^=`
    CaretAssign,
    /// `<<=`
    ShiftLeftAssign,
    /// `>>=`
    ShiftRightAssign,
    /// `+`
    Plus,
    /// `-`
    Minus,
    /// `*`
    Star,
    /// `/`
    Slash,
    /// `%`
    Percent,
    /// `&`
    Ampersand,
    /// `|`
    Bar,
    /// `^`
    Caret,
    /// `~`
    Tilde,
    /// `!`
    Bang,
    /// `<`
    Less,
    /// `>`
    Greater,
    /// `=`
    Assign,
    /// `?`
    Question,
    /// `:`
    Colon,
    /// `;`
    Semicolon,
    /// `,`
    Comma,
    /// `.`
    Dot,
    /// `(`
    OpenParen,
    /// `)`
    CloseParen,
    /// `[`
    OpenBracket,
    /// `]`
    CloseBracket,
    /// `{`
    OpenBrace,
    /// `}`
    CloseBrace,
}

impl Mark {
    /// The mark's place in the list of the marks, from 0.
    #[tactic(auto, unfolding(crate::specs::Spellings::all_marks))]
    pub fn number(self) -> u8
        ensures { slice_get all_marks result ≡ Some self }
    {
        self as u8
    }
}

/// What a token is (C11 6.4).
#[derive(Clone, Copy, Debug, PartialEq, Eq)]
pub enum TokenKind {
    /// A name of the program's own. Its bytes are those that the token spans.
    Name,
    Word(Word),
    /// An integer constant, or a name that `#define` made stand for one.
    Int(Num),
    /// A character constant: its value, an `int`.
    Char(Num),
    /// A string literal, with its quotes.
    Text,
    Mark(Mark),
    /// The end of the text, which spans nothing.
    End,
}

/// A token, and the bytes of the text that it spans: from `from` to before `to`, offsets from 0.
#[derive(Clone, Copy, Debug, PartialEq, Eq)]
pub struct Token {
    pub kind: TokenKind,
    pub from: u32,
    pub to: u32,
}
