//! What stands before a declared name: stars, `const` and `restrict`.

ghost use Rattle.std.specs.Prelude.{◌≡◌};
ghost use Rattle.c_grammar.specs.Grammar.{stars};
ghost use Rattle.parse_tokens.specs.inner.Moves.{Moves, Takes, Keeps};
ghost use Rattle.c_grammar.specs.inner.Reading.{pointer_start, pointer_by, pointers, bare_pointers};
ghost use Rattle.c_grammar.specs.inner.Readers.{choice};

use crate::boxes::put;
use c_lex::{Mark, Word};
use c_tree::syntax::Pointer;
use parse_tokens::parser::{Parser, Stop};

/// How many stars there are.
#[tactic(auto, using(crate::proofs::CodeLists::stars_counted))]
pub fn stars(pointers: &[Pointer]) -> usize
    ensures { result ≡ stars 0 pointers.now }
{
    pointers.iter().filter(|p| **p == Pointer::Star).count()
}

/// `"*" | "const" | "restrict"`, behind so many stars
#[tactic(auto, using(crate::proofs::CodeLoops::chooses, crate::proofs::CodeLoops::choice_fails))]
fn pointer(parser: &mut Parser<'_>, before: usize, room: u32) -> Result<Pointer, Stop>
    ensures reads { Moves (λ a. a) (choice pointer_start (pointer_by room before)) parser.old parser.new result }
    ensures takes { Takes parser.old parser.new result }
{
    let start = parser.pointer_start()?;
    match start {
        Pointer::Star => parser.dimension(Mark::Star, before, room)?,
        Pointer::Const => parser.expected_word(Word::Const, room)?,
        Pointer::Restrict => parser.expected_word(Word::Restrict, room)?,
    }
    Ok(start)
}

/// `{ "*" | "const" | "restrict" }`
#[tactic(auto, using(crate::proofs::CodeLoops::chooses, crate::proofs::CodeLoops::choice_fails), unfolding(c_grammar::specs::inner::Reading::pointers, c_grammar::specs::inner::Readers::turns))]
pub fn pointers(parser: &mut Parser<'_>, room: u32) -> Result<Vec<Pointer>, Stop>
    ensures reads { Moves (λ all. all.items) (pointers room) parser.old parser.new result }
    ensures keeps { Keeps parser.old parser.new result }
{
    let mut all = Vec::new(parser.alloc);
    let mut before = 0;
    'pointers: while parser.is_pointer_next()? {
        let pointer = pointer(parser, before, room)?;
        if let Pointer::Star = pointer {
            before += 1;
        }
        put(&mut all, pointer)?;
    }
    Ok(all)
}

/// The same behind specifiers, to which each `const` would belong.
#[tactic(auto, unfolding(c_grammar::specs::inner::Reading::bare_pointers), using(crate::proofs::CodeLoops::chooses, crate::proofs::CodeLoops::choice_fails))]
pub fn bare_pointers(parser: &mut Parser<'_>, room: u32) -> Result<Vec<Pointer>, Stop>
    ensures reads { Moves (λ all. all.items) (bare_pointers room) parser.old parser.new result }
    ensures keeps { Keeps parser.old parser.new result }
{
    if parser.is_word_next(Word::Const)? {
        return Err(parser.unexpected());
    }
    pointers(parser, room)
}
