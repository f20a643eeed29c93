//! What the first of the tokens is.

ghost use Rattle.std.specs.Prelude.{◌≡◌};
ghost use Rattle.c_grammar.specs.inner.Tokens.{name_of, type_name_of, tag_of, int_of, char_of, text_of, word_is, mark_is, word_place, mark_place, prefix_of, step_of, assign_of, binary_of, type_word_of, storage_of, end_of};
ghost use Rattle.parse_tokens.specs.inner.Heads.{first_as};

use crate::classes;
use ak_words::Num;
use c_grammar::terminal::{Terminal, TerminalKind};
use c_lex::{Mark, Word};
use c_tree::syntax::{AssignOp, BinaryOp, Name, PrefixOp, Span, StepOp, Storage, TypeWord};

/// The mark, if it stands first.
pub fn mark(tokens: &[Terminal], mark: Mark) -> Option<()>
    ensures { result ≡ first_as (mark_is mark) tokens.now }
{
    let [token, ..] = tokens else {
        return None;
    };
    match token.kind {
        TerminalKind::Mark(found) if found == mark => Some(()),
        _ => None,
    }
}

/// The place of the mark, if it stands first.
pub fn mark_place(tokens: &[Terminal], mark: Mark) -> Option<u32>
    ensures { result ≡ first_as (mark_place mark) tokens.now }
{
    let [token, ..] = tokens else {
        return None;
    };
    match token.kind {
        TerminalKind::Mark(found) if found == mark => Some(token.from),
        _ => None,
    }
}

/// The word, if it stands first.
pub fn word(tokens: &[Terminal], word: Word) -> Option<()>
    ensures { result ≡ first_as (word_is word) tokens.now }
{
    let [token, ..] = tokens else {
        return None;
    };
    match token.kind {
        TerminalKind::Word(found) if found == word => Some(()),
        _ => None,
    }
}

/// The place of the word, if it stands first.
pub fn word_place(tokens: &[Terminal], word: Word) -> Option<u32>
    ensures { result ≡ first_as (word_place word) tokens.now }
{
    let [token, ..] = tokens else {
        return None;
    };
    match token.kind {
        TerminalKind::Word(found) if found == word => Some(token.from),
        _ => None,
    }
}

/// `NAME`
pub fn name(tokens: &[Terminal]) -> Option<Name>
    ensures { result ≡ first_as name_of tokens.now }
{
    let [token, ..] = tokens else {
        return None;
    };
    match token.kind {
        TerminalKind::Name => Some(Name {
            from: token.from,
            to: token.to,
        }),
        _ => None,
    }
}

/// `TYPENAME`
pub fn type_name(tokens: &[Terminal]) -> Option<Name>
    ensures { result ≡ first_as type_name_of tokens.now }
{
    let [token, ..] = tokens else {
        return None;
    };
    match token.kind {
        TerminalKind::TypeName => Some(Name {
            from: token.from,
            to: token.to,
        }),
        _ => None,
    }
}

/// `TNAME`: a name, be it a type's or not.
pub fn tag(tokens: &[Terminal]) -> Option<Name>
    ensures { result ≡ first_as tag_of tokens.now }
{
    let [token, ..] = tokens else {
        return None;
    };
    match token.kind {
        TerminalKind::Name | TerminalKind::TypeName => Some(Name {
            from: token.from,
            to: token.to,
        }),
        _ => None,
    }
}

/// An integer constant: its place and its value.
pub fn int(tokens: &[Terminal]) -> Option<(u32, Num)>
    ensures { result ≡ first_as int_of tokens.now }
{
    let [token, ..] = tokens else {
        return None;
    };
    match token.kind {
        TerminalKind::Int(value) => Some((token.from, value)),
        _ => None,
    }
}

/// A character constant: its place and its value.
pub fn char(tokens: &[Terminal]) -> Option<(u32, Num)>
    ensures { result ≡ first_as char_of tokens.now }
{
    let [token, ..] = tokens else {
        return None;
    };
    match token.kind {
        TerminalKind::Char(value) => Some((token.from, value)),
        _ => None,
    }
}

/// `STRING`
pub fn text(tokens: &[Terminal]) -> Option<Span>
    ensures { result ≡ first_as text_of tokens.now }
{
    let [token, ..] = tokens else {
        return None;
    };
    match token.kind {
        TerminalKind::Text => Some(Span {
            from: token.from,
            to: token.to,
        }),
        _ => None,
    }
}

/// The end of the text.
pub fn end(tokens: &[Terminal]) -> Option<()>
    ensures { result ≡ first_as end_of tokens.now }
{
    let [token, ..] = tokens else {
        return None;
    };
    match token.kind {
        TerminalKind::End => Some(()),
        _ => None,
    }
}

/// A prefix operator, and its place.
pub fn prefix_op(tokens: &[Terminal]) -> Option<(u32, PrefixOp)>
    ensures { result ≡ first_as prefix_of tokens.now }
{
    let [token, ..] = tokens else {
        return None;
    };
    let TerminalKind::Mark(found) = token.kind else {
        return None;
    };
    match classes::prefix_of(found) {
        Some(found) => Some((token.from, found)),
        None => None,
    }
}

/// An increment or decrement, and its place.
pub fn step_op(tokens: &[Terminal]) -> Option<(u32, StepOp)>
    ensures { result ≡ first_as step_of tokens.now }
{
    let [token, ..] = tokens else {
        return None;
    };
    let TerminalKind::Mark(found) = token.kind else {
        return None;
    };
    match classes::step_of(found) {
        Some(found) => Some((token.from, found)),
        None => None,
    }
}

/// An assignment, and its place.
pub fn assign_op(tokens: &[Terminal]) -> Option<(u32, AssignOp)>
    ensures { result ≡ first_as assign_of tokens.now }
{
    let [token, ..] = tokens else {
        return None;
    };
    let TerminalKind::Mark(found) = token.kind else {
        return None;
    };
    match classes::assign_of(found) {
        Some(found) => Some((token.from, found)),
        None => None,
    }
}

/// A binary operator of the height, and its place.
pub fn binary_op(tokens: &[Terminal], of: u32) -> Option<(u32, BinaryOp)>
    ensures { result ≡ first_as (binary_of of) tokens.now }
{
    let [token, ..] = tokens else {
        return None;
    };
    let TerminalKind::Mark(found) = token.kind else {
        return None;
    };
    match classes::binary_of(of, found) {
        Some(found) => Some((token.from, found)),
        None => None,
    }
}

/// A word of a type, and its place.
pub fn type_word(tokens: &[Terminal]) -> Option<(u32, TypeWord)>
    ensures { result ≡ first_as type_word_of tokens.now }
{
    let [token, ..] = tokens else {
        return None;
    };
    let TerminalKind::Word(found) = token.kind else {
        return None;
    };
    match classes::type_of(found) {
        Some(found) => Some((token.from, found)),
        None => None,
    }
}

/// `"static" | "inline"`
pub fn storage(tokens: &[Terminal]) -> Option<Storage>
    ensures { result ≡ first_as storage_of tokens.now }
{
    let [token, ..] = tokens else {
        return None;
    };
    let TerminalKind::Word(found) = token.kind else {
        return None;
    };
    match classes::storage_of(found) {
        Some(found) => Some(found),
        None => None,
    }
}
