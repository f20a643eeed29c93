ghost use Rattle.std.specs.Prelude.{◌≡◌, ◌≤◌, length, IfOk, Ok};
ghost use Rattle.c_lex.specs.Tokens.{token, refusal, stays_line_start, AreTokens, IsStringOf, literal_of};
ghost use Rattle.c_lex.specs.Refusals.{IfRefused, RefusesText};

use crate::byte::Class;
use crate::directive::Define;
use crate::item::{Found, Item, item_at};
use crate::quoted::bytes_of;
use crate::refusal::{CompileFault, Kind, Refusal};
use crate::spelling::is_taken;
use crate::token::{Token, TokenKind};
use ak_words::{NoMemory, Num};
use indexmap::IndexMap;
use std::alloc::{AllocError, Global};

/// The most names that `#define` may make.
const MOST_NAMES: usize = 1024;

/// The names that `#define` made stand for numbers so far, and the text that they stand in.
#[derive(Drop)]
struct Names<'t> {
    text: &'t [u8],
    numbers: IndexMap<&'t [u8], Num>,
}

/// The tokens so far, and the names.
#[derive(Drop)]
struct Lexer<'t> {
    names: Names<'t>,
    tokens: Vec<Token>,
}

impl<'t> Names<'t> {
    ghost use Rattle.std.specs.Prelude.{◌≡◌, ◌+◌, ◌<◌, ◌≤◌, ◌++◌, ◌∷◌, [], OnOk, length};
    ghost use Rattle.std.specs.List.{slice_range};
    ghost use Rattle.std.specs.Map.{lookup};
    ghost use Rattle.std.specs.Str.{bytes_eq};
    ghost use Rattle.c_lex.specs.Tokens.{named, defined};
    ghost use Rattle.c_lex.specs.inner.Lexing.{names_in};

    /// The number that a name of the text stands for, if it was defined.
    fn number_of(&self, from: usize, to: usize) -> Option<Num>
        requires ordered { from ≤ to }
        requires within { to ≤ length self.now.text.now }
        ensures { result ≡ lookup (bytes_eq (slice_range self.now.text.now from to)) (names_in self.now) }
    {
        self.numbers.get(&self.text[from..to]).copied()
    }

    /// What a name of the text is: the constant that it was defined as, or a name of the program's own.
    fn kind_of(&self, from: usize, to: usize) -> TokenKind
        requires ordered { from ≤ to }
        requires within { to ≤ length self.now.text.now }
        ensures { result ≡ named (lookup (bytes_eq (slice_range self.now.text.now from to)) (names_in self.now)) }
    {
        match self.number_of(from, to) {
            Some(n) => TokenKind::Int(n),
            None => TokenKind::Name,
        }
    }

    /// The number that a `#define` at a place makes its name stand for, or what refuses it.
    #[tactic(auto, unfolding(crate::specs::Tokens::defined))]
    fn defined(&self, place: usize, define: Define) -> Result<Num, Refusal>
        requires name { place + define.name_to ≤ length self.now.text.now }
        requires number { place + define.number_from ≤ length self.now.text.now }
        requires ordered { define.name_from ≤ define.name_to }
        requires short { length self.now.text.now ≤ 1048576 }
        ensures { result ≡ defined self.now.text.now (names_in self.now) place define }
    {
        let from = place + define.name_from;
        let to = place + define.name_to;
        if is_taken(&self.text[from..to]) {
            return Err(refusal(place, Kind::UnexpectedToken));
        }
        if self.number_of(from, to).is_some() {
            return Err(refusal(place, Kind::DoubleName));
        }
        if self.numbers.len() >= MOST_NAMES {
            return Err(refusal(from, Kind::TooMany(10)));
        }
        match define.value {
            Some(n) => Ok(n),
            None => Err(refusal(place + define.number_from, Kind::NumberTooWide)),
        }
    }

    /// Makes a name of the text, which isn't defined yet, stand for a number.
    fn define(&mut self, from: usize, to: usize, number: Num) -> Result<(), AllocError>
        requires ordered { from ≤ to }
        requires within { to ≤ length self.old.text.now }
        requires fresh { lookup (bytes_eq (slice_range self.old.text.now from to)) (names_in self.old) ≡ None }
        ensures text { self.new.text ≡ self.old.text }
        ensures added { OnOk result (names_in self.new ≡ names_in self.old ++ (slice_range self.old.text.now from to, number) ∷ []) }
    {
        let name = &self.text[from..to];
        self.numbers.insert(name, number)?;
        Ok(())
    }
}

/// A refusal.
fn refusal(place: usize, kind: Kind) -> Refusal
    requires { place ≤ 1048576 }
    ensures { result ≡ refusal place kind }
{
    Refusal {
        place: place as u32,
        kind,
    }
}

/// A token.
fn token(kind: TokenKind, from: usize, to: usize) -> Token
    requires ordered { from ≤ to }
    requires short { to ≤ 1048576 }
    ensures { result ≡ token kind from to }
{
    Token {
        kind,
        from: from as u32,
        to: to as u32,
    }
}

/// Whether nothing but white space stands on the line, behind a byte.
fn stays_line_start(is_line_start: bool, byte: u8) -> bool
    ensures { result ≡ stays_line_start is_line_start byte }
{
    byte == b'\n' || Class::White.has(byte) && is_line_start
}

impl<'t> Lexer<'t> {
    ghost use Rattle.std.specs.Prelude.{◌≡◌, ◌+◌, ◌<◌, ◌≤◌, ◌++◌, ◌∷◌, [], OnOk, IfOk, length};
    ghost use Rattle.c_lex.specs.declared.item.Item.TheVariants as items;
    ghost use Rattle.c_lex.specs.Tokens.{end_of};
    ghost use Rattle.c_lex.specs.Refusals.{IfRefused};
    ghost use Rattle.c_lex.specs.inner.Lexing.{HasTaken, HasRefused};
    ghost use Rattle.c_lex.specs.inner.Spans.{IsInside};

    /// Takes a token.
    fn take_token(&mut self, kind: TokenKind, from: usize, to: usize) -> Result<(), CompileFault>
        requires ordered { from ≤ to }
        requires short { to ≤ 1048576 }
        ensures text { self.new.names.text ≡ self.old.names.text }
        ensures taken { OnOk result (HasTaken self.old (from, to, items.Token kind) self.new) }
        ensures unrefused { IfRefused result (λ r. ⊥) }
    {
        self.tokens.push(token(kind, from, to))?;
        Ok(())
    }

    /// Takes a name, which may have been defined.
    fn take_name(&mut self, from: usize, to: usize) -> Result<(), CompileFault>
        requires ordered { from ≤ to }
        requires within { to ≤ length self.old.names.text.now }
        requires short { length self.old.names.text.now ≤ 1048576 }
        ensures text { self.new.names.text ≡ self.old.names.text }
        ensures taken { OnOk result (HasTaken self.old (from, to, items.Name) self.new) }
        ensures unrefused { IfRefused result (λ r. ⊥) }
    {
        let kind = self.names.kind_of(from, to);
        self.tokens.push(token(kind, from, to))?;
        Ok(())
    }

    /// Takes a `#define` at a place, or is refused by it.
    fn take_define(&mut self, place: usize, end: usize, define: Define) -> Result<(), CompileFault>
        requires name { place + define.name_to ≤ length self.old.names.text.now }
        requires number { place + define.number_from ≤ length self.old.names.text.now }
        requires ordered { define.name_from ≤ define.name_to }
        requires short { length self.old.names.text.now ≤ 1048576 }
        ensures text { self.new.names.text ≡ self.old.names.text }
        ensures taken { OnOk result (HasTaken self.old (place, end, items.Define define) self.new) }
        ensures refused { IfRefused result (HasRefused self.old (place, end, items.Define define)) }
    {
        let number = match self.names.defined(place, define) {
            Ok(number) => number,
            Err(refused) => return Err(CompileFault::Refused(refused)),
        };
        let from = place + define.name_from;
        self.names.define(from, place + define.name_to, number)?;
        Ok(())
    }

    /// Takes what stands at a place, or is refused by it.
    fn take(&mut self, place: usize, found: Found) -> Result<(), CompileFault>
        requires within { place + found.len ≤ length self.old.names.text.now }
        requires inside { IsInside found.len found.item }
        requires short { length self.old.names.text.now ≤ 1048576 }
        ensures text { self.new.names.text ≡ self.old.names.text }
        ensures taken { OnOk result (HasTaken self.old (place, place + found.len, found.item) self.new) }
        ensures refused { IfRefused result (HasRefused self.old (place, place + found.len, found.item)) }
    {
        let end = place + found.len;
        match found.item {
            Item::Blank => Ok(()),
            Item::Name => self.take_name(place, end),
            Item::Token(kind) => self.take_token(kind, place, end),
            Item::Define(define) => self.take_define(place, end, define),
            Item::Fault(kind) => Err(CompileFault::Refused(refusal(place, kind))),
        }
    }

    /// The tokens, with the end of the text.
    fn finish(self) -> Result<Vec<Token>, CompileFault>
        requires { length self.names.text.now ≤ 1048576 }
        ensures found { IfOk result (λ tokens. tokens.items ≡ self.entry.tokens.items ++ end_of self.entry.names.text.now ∷ []) }
        ensures unrefused { IfRefused result (λ r. ⊥) }
    {
        let mut tokens = self.tokens;
        let end = self.names.text.len();
        tokens.push(token(TokenKind::End, end, end))?;
        Ok(tokens)
    }
}

/// The tokens of the text, in order, each the longest at its place, with one `End` last (C11 6.4).
///
/// The first place at which something stands that is no part of a text of the language refuses it, for
/// the least of its reasons by number. The text has at most 2^20 bytes.
pub fn lex(alloc: Global, text: &[u8]) -> Result<Vec<Token>, CompileFault>
    requires { length text.now ≤ 1048576 }
    ensures found { IfOk result (λ tokens. AreTokens text.now tokens.items) }
    ensures refused { IfRefused result (λ r. RefusesText text.now r) }
{
    let mut lexer = Lexer {
        names: Names {
            text,
            numbers: IndexMap::new(alloc),
        },
        tokens: Vec::new(alloc),
    };
    let mut is_line_start = true;
    let mut place = 0;
    while place < text.len() {
        let found = item_at(is_line_start, &text[place..]);
        lexer.take(place, found)?;
        is_line_start = stays_line_start(is_line_start, text[place]);
        place += found.len;
    }
    lexer.finish()
}

/// The bytes that a string of the text stands for: those between its quotes, with each escape as one byte
/// (C11 6.4.5). No zero byte is added.
pub fn literal(alloc: Global, text: &[u8], token: Token) -> Result<Vec<u8>, NoMemory>
    requires { IsStringOf text.now token }
    ensures { IfOk result (λ bytes. literal_of text.now token ≡ Ok bytes.items) }
{
    bytes_of(alloc, &text[token.from as usize + 1..token.to as usize - 1])
}
