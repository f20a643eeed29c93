ghost use Rattle.std.specs.Prelude.{◌≡◌, ◌<◌, ◌≤◌, false, length, IfSome};
ghost use Rattle.c_lex.specs.Items.{found, fault, begins_number, comment_len, start_of, run, item_from, item_at};
ghost use Rattle.c_lex.specs.inner.Classes.{is_in};
ghost use Rattle.c_lex.specs.inner.Spans.{Spans};

use crate::byte::{Class, begins, run_len};
use crate::constant::{number_len, number_of};
use crate::directive::{Define, directive_of};
use crate::quoted::{char_of, closing, fault_of};
use crate::refusal::Kind;
use crate::spelling::{mark_bytes, mark_of, word_of};
use crate::token::TokenKind;

/// What stands at a place of a text.
#[derive(Clone, Copy)]
pub enum Item {
    /// White space, a comment or an `#include`: nothing that the parser sees.
    Blank,
    /// A name that is no reserved word.
    Name,
    /// A token of another kind.
    Token(TokenKind),
    Define(Define),
    /// What refuses the text here.
    Fault(Kind),
}

/// An item, and how many bytes it takes.
#[derive(Clone, Copy)]
pub struct Found {
    pub item: Item,
    pub len: usize,
}

/// What may begin where bytes stand.
#[derive(Clone, Copy)]
pub enum Start {
    White,
    LineComment,
    BlockComment,
    Directive,
    Name,
    Number,
    Char,
    Text,
    /// A mark, or nothing.
    Mark,
}

impl Found {
    /// An item of so many bytes.
    fn new(item: Item, len: usize) -> Found
        ensures { result ≡ found item len }
    {
        Found { item, len }
    }

    /// What refuses the text at this place.
    fn fault(kind: Kind) -> Found
        ensures { result ≡ fault kind }
    {
        Found::new(Item::Fault(kind), 1)
    }
}

/// What may begin where these bytes do; a directive only where nothing but white space stands before it on its line.
#[tactic(auto, unfolding(crate::specs::Items::start_of))]
fn start_of(is_line_start: bool, bytes: &[u8]) -> Start
    ensures start { result ≡ start_of is_line_start bytes.now }
    ensures long { result ≡ Start.BlockComment → 2 ≤ length bytes.now }
{
    if begins(Class::White, bytes) {
        Start::White
    } else if bytes.starts_with(b"//") {
        Start::LineComment
    } else if bytes.starts_with(b"/*") {
        Start::BlockComment
    } else if is_line_start && bytes.starts_with(b"#") {
        Start::Directive
    } else if begins(Class::Letter, bytes) {
        Start::Name
    } else if begins_number(bytes) {
        Start::Number
    } else if bytes.starts_with(b"'") {
        Start::Char
    } else if bytes.starts_with(b"\"") {
        Start::Text
    } else {
        Start::Mark
    }
}

/// Whether a number begins there: a digit, or a point and a digit.
#[tactic(auto, unfolding(crate::specs::Items::begins_number))]
fn begins_number(bytes: &[u8]) -> bool
    ensures { result ≡ begins_number bytes.now }
{
    begins(Class::Digit, bytes) || bytes.starts_with(b".") && begins(Class::Digit, &bytes[1..])
}

/// How many bytes a comment has behind its `/*`, up to the next `*/` with it, if there is one.
fn comment_len(bytes: &[u8]) -> Option<usize>
    ensures place { result ≡ comment_len false 0 bytes.now }
    ensures within { IfSome result (λ len. (0 < len) × (len ≤ length bytes.now)) }
{
    let mut after_star = false;
    for (i, byte) in bytes.iter().enumerate() {
        if after_star && *byte == b'/' {
            return Some(i + 1);
        }
        after_star = *byte == b'*';
    }
    None
}

/// The first byte, and all of the class that follow it.
fn run(class: Class, bytes: &[u8]) -> usize
    requires { 0 < length bytes.now }
    ensures len { result ≡ run (is_in class) bytes.now }
    ensures some { 0 < result }
    ensures within { result ≤ length bytes.now }
{
    1 + run_len(class, &bytes[1..])
}

/// A comment from `/*` on.
fn block_comment(bytes: &[u8]) -> Found
    requires { 2 ≤ length bytes.now }
    ensures found { result ≡ item_from Start.BlockComment bytes.now }
    ensures spans { Spans (length bytes.now) result }
{
    match comment_len(&bytes[2..]) {
        Some(len) => Found::new(Item::Blank, 2 + len),
        None => Found::fault(Kind::OpenLiteral),
    }
}

/// A directive, from its `#` on.
fn directive(bytes: &[u8]) -> Found
    requires { 0 < length bytes.now }
    ensures found { result ≡ item_from Start.Directive bytes.now }
    ensures spans { Spans (length bytes.now) result }
{
    let len = run(Class::Line, bytes);
    Found::new(directive_of(&bytes[..len]), len)
}

/// A reserved word, or a name of the program's own.
fn name(bytes: &[u8]) -> Found
    requires { 0 < length bytes.now }
    ensures found { result ≡ item_from Start.Name bytes.now }
    ensures spans { Spans (length bytes.now) result }
{
    let len = run(Class::Name, bytes);
    match word_of(&bytes[..len]) {
        Some(word) => Found::new(Item::Token(TokenKind::Word(word)), len),
        None => Found::new(Item::Name, len),
    }
}

/// A number.
fn number(bytes: &[u8]) -> Found
    requires { 0 < length bytes.now }
    ensures found { result ≡ item_from Start.Number bytes.now }
    ensures spans { Spans (length bytes.now) result }
{
    let len = 1 + number_len(&bytes[1..]);
    match number_of(&bytes[..len]) {
        Ok(n) => Found::new(Item::Token(TokenKind::Int(n)), len),
        Err(kind) => Found::fault(kind),
    }
}

/// A character constant, from its opening quote on.
fn char_literal(bytes: &[u8]) -> Found
    requires { 0 < length bytes.now }
    ensures found { result ≡ item_from Start.Char bytes.now }
    ensures spans { Spans (length bytes.now) result }
{
    let rest = &bytes[1..];
    let Some(len) = closing(b'\'', rest) else {
        return Found::fault(Kind::OpenLiteral);
    };
    match char_of(&rest[..len]) {
        Ok(n) => Found::new(Item::Token(TokenKind::Char(n)), len + 2),
        Err(kind) => Found::fault(kind),
    }
}

/// A string, from its opening quote on.
fn string_literal(bytes: &[u8]) -> Found
    requires { 0 < length bytes.now }
    ensures found { result ≡ item_from Start.Text bytes.now }
    ensures spans { Spans (length bytes.now) result }
{
    let rest = &bytes[1..];
    let Some(len) = closing(b'"', rest) else {
        return Found::fault(Kind::OpenLiteral);
    };
    match fault_of(&rest[..len]) {
        None => Found::new(Item::Token(TokenKind::Text), len + 2),
        Some(kind) => Found::fault(kind),
    }
}

/// A mark, or a byte that begins nothing.
fn mark(bytes: &[u8]) -> Found
    requires { 0 < length bytes.now }
    ensures found { result ≡ item_from Start.Mark bytes.now }
    ensures spans { Spans (length bytes.now) result }
{
    match mark_of(bytes) {
        Some(mark) => Found::new(Item::Token(TokenKind::Mark(mark)), mark_bytes(mark).len()),
        None => Found::fault(Kind::BadByte),
    }
}

/// What stands where these bytes begin.
#[tactic(auto, unfolding(crate::specs::Items::item_at))]
pub(crate) fn item_at(is_line_start: bool, bytes: &[u8]) -> Found
    requires { 0 < length bytes.now }
    ensures found { result ≡ item_at is_line_start bytes.now }
    ensures spans { Spans (length bytes.now) result }
{
    match start_of(is_line_start, bytes) {
        Start::White => Found::new(Item::Blank, 1),
        Start::LineComment => Found::new(Item::Blank, run(Class::Line, bytes)),
        Start::BlockComment => block_comment(bytes),
        Start::Directive => directive(bytes),
        Start::Name => name(bytes),
        Start::Number => number(bytes),
        Start::Char => char_literal(bytes),
        Start::Text => string_literal(bytes),
        Start::Mark => mark(bytes),
    }
}
