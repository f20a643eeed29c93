//! What the next token begins, among statements and declarations.

ghost use Rattle.std.specs.Prelude.{◌≡◌};
ghost use Rattle.std.specs.Option.{option_map};
ghost use Rattle.c_grammar.specs.inner.Readers.{sort_of_kind, too_deep};
ghost use Rattle.c_grammar.specs.inner.Reading.{stmt_start, tail_start, begins_stmt, begins_item, is_label, begins_entry, begins_external};
ghost use Rattle.c_parse.specs.inner.Parts.{stmt_start_view, tail_view};
ghost use Rattle.parse_tokens.specs.inner.Moves.{Moves, Fails, peek, ahead};
ghost use Rattle.c_grammar.specs.inner.Tokens.{begins_simple};

use c_grammar::terminal::TerminalKind;
use c_lex::{Mark, Word};
use parse_tokens::classes::{assign_of, begins_simple, begins_type, step_of, storage_of};
use parse_tokens::parser::{Parser, Stop};

/// What stands behind the expression of a simple statement.
#[derive(Clone, Copy)]
pub enum TailStart {
    Step,
    Assign,
    Nothing,
}

/// What a statement begins with.
#[derive(Clone, Copy)]
pub enum StmtStart {
    Block,
    Empty,
    If,
    While,
    For,
    Do,
    Switch,
    Break,
    Continue,
    Return,
    Simple,
}

/// The statement that begins with the token.
pub fn stmt_of(kind: TerminalKind) -> Option<StmtStart>
    ensures { option_map stmt_start_view result ≡ stmt_start (sort_of_kind kind) }
{
    match kind {
        TerminalKind::Mark(Mark::OpenBrace) => Some(StmtStart::Block),
        TerminalKind::Mark(Mark::Semicolon) => Some(StmtStart::Empty),
        TerminalKind::Word(Word::If) => Some(StmtStart::If),
        TerminalKind::Word(Word::While) => Some(StmtStart::While),
        TerminalKind::Word(Word::For) => Some(StmtStart::For),
        TerminalKind::Word(Word::Do) => Some(StmtStart::Do),
        TerminalKind::Word(Word::Switch) => Some(StmtStart::Switch),
        TerminalKind::Word(Word::Break) => Some(StmtStart::Break),
        TerminalKind::Word(Word::Continue) => Some(StmtStart::Continue),
        TerminalKind::Word(Word::Return) => Some(StmtStart::Return),
        _ if begins_simple(kind) => Some(StmtStart::Simple),
        _ => None,
    }
}

// The next token, which is left.

/// What is next behind an expression, which is a postfix or not.
pub fn tail_start(parser: &Parser<'_>, postfix: bool) -> Result<TailStart, Stop>
    ensures { Moves tail_view (peek (tail_start postfix)) parser.now parser.now result }
{
    let TerminalKind::Mark(mark) = parser.next()? else {
        return Ok(TailStart::Nothing);
    };
    if assign_of(mark).is_some() {
        return Ok(TailStart::Assign);
    }
    if step_of(mark).is_none() {
        return Ok(TailStart::Nothing);
    }
    if !postfix {
        return Err(parser.unexpected());
    }
    Ok(TailStart::Step)
}

/// Which statement is next.
pub fn stmt_start(parser: &Parser<'_>) -> Result<StmtStart, Stop>
    ensures { Moves stmt_start_view (peek stmt_start) parser.now parser.now result }
{
    let kind = parser.next()?;
    match stmt_of(kind) {
        Some(start) => Ok(start),
        None => Err(parser.unexpected()),
    }
}

/// Whether a declaration or a statement is next.
pub fn is_item_next(parser: &Parser<'_>) -> Result<bool, Stop>
    ensures { Moves (λ b. b) (ahead begins_item) parser.now parser.now result }
{
    let kind = parser.next()?;
    Ok(begins_type(kind) || stmt_of(kind).is_some())
}

/// Whether a label begins with the token.
fn is_label(kind: TerminalKind) -> bool
    ensures { result ≡ is_label (sort_of_kind kind) }
{
    match kind {
        TerminalKind::Word(word) => word == Word::Case || word == Word::Default,
        _ => false,
    }
}

/// Whether a label is next.
pub fn is_label_next(parser: &Parser<'_>) -> Result<bool, Stop>
    ensures { Moves (λ b. b) (ahead is_label) parser.now parser.now result }
{
    let kind = parser.next()?;
    Ok(is_label(kind))
}

/// Whether a label or a statement is next.
pub fn is_entry_next(parser: &Parser<'_>) -> Result<bool, Stop>
    ensures { Moves (λ b. b) (ahead begins_entry) parser.now parser.now result }
{
    let kind = parser.next()?;
    Ok(is_label(kind) || stmt_of(kind).is_some())
}

/// Whether an external declaration is next.
pub fn is_external_next(parser: &Parser<'_>) -> Result<bool, Stop>
    ensures { Moves (λ b. b) (ahead begins_external) parser.now parser.now result }
{
    let kind = parser.next()?;
    match kind {
        TerminalKind::Word(word) => {
            Ok(word == Word::Typedef || storage_of(word).is_some() || begins_type(kind))
        }
        _ => Ok(begins_type(kind)),
    }
}

/// The refusal of a simple statement where no room is left.
pub fn no_room_for_simple(parser: &Parser<'_>) -> Stop
    ensures { Fails {A = Unit {0}} result (too_deep begins_simple parser.now.count parser.now.rest.now) }
{
    match parser.rest {
        [token, ..] if begins_simple(token.kind) => parser.too_deep(),
        _ => parser.sunk(),
    }
}

/// The refusal of a statement where no room is left.
pub fn no_room_for_stmt(parser: &Parser<'_>) -> Stop
    ensures { Fails {A = Unit {0}} result (too_deep begins_stmt parser.now.count parser.now.rest.now) }
{
    match parser.rest {
        [token, ..] if stmt_of(token.kind).is_some() => parser.too_deep(),
        _ => parser.sunk(),
    }
}
