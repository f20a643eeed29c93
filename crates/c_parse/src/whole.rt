//! The parser, whole: the file that tokens are, or where they cease to be one.

ghost use Rattle.std.specs.Prelude.{◌≡◌, ◌≤◌, length, All, IfOk};
ghost use Rattle.c_lex.specs.Refusals.{IfRefused};
ghost use Rattle.c_tree.specs.SyntaxViews.{view};
ghost use Rattle.c_grammar.specs.Laws.{EndOnce};
ghost use Rattle.c_grammar.specs.Language.{refusal_of_word, or_too_deep, Parses, RefusesTokens};
ghost use Rattle.c_grammar.specs.inner.TerminalFiles.{refusal_of, Parses as ParsesTerminals, RefusesTokens as RefusesTerminals};
ghost use Rattle.mark_types.specs.Texts.{IsInText};
ghost use Rattle.c_parse.specs.inner.Ends.{EndsWithEnd};

use crate::files::whole_file;
use ak_words::NoMemory;
use c_grammar::terminal::{Terminal, TerminalKind};
use c_lex::{CompileFault, Kind, Mark, Refusal, Token, Word};
use c_tree::syntax::Program;
use mark_types::marked;
use parse_tokens::parser::{Parser, Stop};
use std::alloc::Global;

/// How a reserved word is refused that may not stand where it does: as part of a feature that is left out, or as any other token.
fn refusal_of_word(word: Word) -> Kind
    ensures { result ≡ refusal_of_word word }
{
    match word {
        Word::Float | Word::Double | Word::Complex | Word::Imaginary => Kind::OutsideSubset(2),
        Word::Union => Kind::OutsideSubset(3),
        Word::Goto => Kind::OutsideSubset(4),
        Word::Volatile => Kind::OutsideSubset(6),
        Word::Extern
        | Word::Static
        | Word::Inline
        | Word::Alignas
        | Word::Alignof
        | Word::Bool
        | Word::Generic
        | Word::Noreturn
        | Word::StaticAssert
        | Word::ThreadLocal => Kind::OutsideSubset(10),
        _ => Kind::UnexpectedToken,
    }
}

/// How a terminal is refused that may not stand where it does.
fn refusal_of(kind: TerminalKind) -> Kind
    ensures { result ≡ refusal_of kind }
{
    match kind {
        TerminalKind::Word(word) => refusal_of_word(word),
        TerminalKind::Mark(Mark::Ellipsis) => Kind::OutsideSubset(5),
        _ => Kind::UnexpectedToken,
    }
}

/// Where whatever may stand lies too deep, that is told before a feature that is left out.
fn or_too_deep(kind: Kind) -> Kind
    ensures { result ≡ or_too_deep kind }
{
    match kind {
        Kind::OutsideSubset(_) => Kind::TooDeep,
        _ => kind,
    }
}

/// The file of the grammar that the terminals are, or the refusal of the first that is none of a file's.
fn parse_terminals(alloc: Global, terminals: &[Terminal]) -> Result<Program, CompileFault>
    requires { EndsWithEnd terminals.now }
    ensures found { IfOk result (λ program. ParsesTerminals terminals.now (view program)) }
    ensures refused { IfRefused result (λ r. RefusesTerminals terminals.now r) }
{
    let mut parser = Parser {
        rest: terminals,
        count: 0,
        alloc,
    };
    match whole_file(&mut parser) {
        Ok(program) => Ok(program),
        Err(Stop::Unexpected(left)) => {
            let terminal = terminals[terminals.len() - left];
            Err(CompileFault::Refused(Refusal {
                place: terminal.from,
                kind: refusal_of(terminal.kind),
            }))
        }
        Err(Stop::Sunk(left)) => {
            let terminal = terminals[terminals.len() - left];
            Err(CompileFault::Refused(Refusal {
                place: terminal.from,
                kind: or_too_deep(refusal_of(terminal.kind)),
            }))
        }
        Err(Stop::Over(kind, left)) => {
            let place = terminals[terminals.len() - left].from;
            Err(CompileFault::Refused(Refusal { place, kind }))
        }
        Err(Stop::NoMemory) => Err(CompileFault::NoMemory),
    }
}

/// The file of the grammar that the tokens of a text are, or the refusal of the first token that is none of a file's.
///
/// The tokens end with their one `End`, lie in the text and are as few, as those that `c_lex::lex` gives do.
pub fn parse(alloc: Global, text: &[u8], tokens: &[Token]) -> Result<Program, CompileFault>
    requires end { EndOnce tokens.now }
    requires inside { All (IsInText text.now) tokens.now }
    requires few { length tokens.now ≤ 1048577 }
    // The tokens spell this file of the grammar, within the limits, and no other.
    ensures found { IfOk result (λ program. Parses text.now tokens.now (view program)) }
    // Some file begins with the tokens before the refused one, and none within the limits with it behind them.
    ensures refused { IfRefused result (λ r. RefusesTokens text.now tokens.now r) }
{
    match marked(alloc, text, tokens) {
        Ok(terminals) => parse_terminals(alloc, &terminals),
        Err(NoMemory) => Err(CompileFault::NoMemory),
    }
}
