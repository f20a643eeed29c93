ghost use Rattle.std.specs.Prelude.{◌≡◌, ◌≤◌, length};
ghost use Rattle.c_lex.specs.Directives.{is_line_end, headers, is_header, is_include, has_form, define_of, directive_named, directive_of};
ghost use Rattle.c_lex.specs.inner.Spans.{IsInside};

use crate::byte::{Class, begins, past};
use crate::constant::{number_len, number_of};
use crate::item::Item;
use crate::refusal::Kind;
use ak_words::Num;

/// A line `#define NAME N`, by what stands where, offsets from its `#`.
#[derive(Clone, Copy)]
pub struct Define {
    pub name_from: usize,
    pub name_to: usize,
    pub number_from: usize,
    /// The number, if some type holds it.
    pub value: Option<Num>,
}

/// The headers that a program may include.
const HEADERS: [&[u8]; 6] = [
    b"<stdio.h>",
    b"<stdlib.h>",
    b"<string.h>",
    b"<stddef.h>",
    b"<threads.h>",
    b"<stdatomic.h>",
];

/// A directive of another form.
const OTHER: Item = Item::Fault(Kind::OutsideSubset(1));

/// Whether from the place on stands white space, and then nothing or a `//` comment.
#[tactic(auto, unfolding(crate::specs::Directives::is_line_end))]
fn is_line_end(line: &[u8], from: usize) -> bool
    requires { from ≤ length line.now }
    ensures { result ≡ is_line_end line.now from }
{
    let rest = &line[past(Class::White, line, from)..];
    rest.is_empty() || rest.starts_with(b"//")
}

/// Whether a header goes from the one place to the `>` at the other, and then the line ends.
#[tactic(auto, unfolding(crate::specs::Directives::is_header, crate::specs::Directives::headers))]
fn is_header(line: &[u8], from: usize, to: usize) -> bool
    requires { from ≤ to }
    ensures { result ≡ is_header line.now from to }
{
    to < line.len() && HEADERS.contains(&&line[from..to + 1]) && is_line_end(line, to + 1)
}

/// Whether what stands behind `include` is a header.
#[tactic(auto, unfolding(crate::specs::Directives::is_include))]
fn is_include(line: &[u8], from: usize) -> bool
    requires { from ≤ length line.now }
    ensures { result ≡ is_include line.now from }
{
    let header_from = past(Class::White, line, from);
    let header_to = past(Class::BeforeBracket, line, header_from);
    is_header(line, header_from, header_to)
}

/// Whether a letter begins the name and a digit the number, and the line ends behind it.
#[tactic(auto, unfolding(crate::specs::Directives::has_form))]
fn has_form(line: &[u8], name_from: usize, number_from: usize, number_to: usize) -> bool
    requires name { name_from ≤ length line.now }
    requires number { number_from ≤ length line.now }
    requires end { number_to ≤ length line.now }
    ensures { result ≡ has_form line.now name_from number_from number_to }
{
    begins(Class::Letter, &line[name_from..])
        && begins(Class::Digit, &line[number_from..])
        && is_line_end(line, number_to)
}

/// What stands behind `define`: a name and a number.
#[tactic(auto, unfolding(crate::specs::Directives::define_of))]
fn define_of(line: &[u8], from: usize) -> Item
    requires { from ≤ length line.now }
    ensures value { result ≡ define_of line.now from }
    ensures inside { IsInside (length line.now) result }
{
    let name_from = past(Class::White, line, from);
    let name_to = past(Class::Name, line, name_from);
    let number_from = past(Class::White, line, name_to);
    let number_to = number_from + number_len(&line[number_from..]);
    if !has_form(line, name_from, number_from, number_to) {
        return OTHER;
    }
    let value = match number_of(&line[number_from..number_to]) {
        Ok(n) => Some(n),
        Err(Kind::NumberTooWide) => None,
        Err(_) => return OTHER,
    };
    Item::Define(Define {
        name_from,
        name_to,
        number_from,
        value,
    })
}

/// The directive whose name goes from the one place of its line to the other.
#[tactic(auto, unfolding(crate::specs::Directives::directive_named))]
fn directive_named(line: &[u8], from: usize, to: usize) -> Item
    requires ordered { from ≤ to }
    requires within { to ≤ length line.now }
    ensures value { result ≡ directive_named line.now from to }
    ensures inside { IsInside (length line.now) result }
{
    let name = &line[from..to];
    if name == b"include".as_slice() {
        if is_include(line, to) {
            Item::Blank
        } else {
            OTHER
        }
    } else if name == b"define".as_slice() {
        define_of(line, to)
    } else {
        OTHER
    }
}

/// The directive on a line, which begins with its `#` (C11 6.10).
#[tactic(auto, unfolding(crate::specs::Directives::directive_of))]
pub(crate) fn directive_of(line: &[u8]) -> Item
    requires { 1 ≤ length line.now }
    ensures value { result ≡ directive_of line.now }
    ensures inside { IsInside (length line.now) result }
{
    let from = past(Class::White, line, 1);
    let to = past(Class::Name, line, from);
    directive_named(line, from, to)
}
