//! Declarations (C11 6.7): declarators with their initialisers.

ghost use Rattle.std.specs.Prelude.{◌-◌, ◌<◌, [], ◌∷◌, map};
ghost use Rattle.c_tree.specs.SyntaxViews.{init_declarator_view, declaration_view};
ghost use Rattle.c_parse.specs.inner.Boxes.{boxed_initialised_view};
ghost use Rattle.parse_tokens.specs.inner.Moves.{Moves, Takes, Keeps};
ghost use Rattle.c_grammar.specs.inner.Reading.{declaration};
ghost use Rattle.c_parse.specs.inner.Parts.{first_initialised, next_initialised, more_initialised};

use crate::building::initialised;
use c_lex::Mark;
use c_tree::syntax::{Declaration, InitDeclarator};
use parse_expressions::boxes::put_inner;
use parse_expressions::types::{bare_declared, declared, initialiser, specs};
use parse_tokens::parser::{Parser, Stop};

/// `ptr NAME dims [ "=" expr ]`, behind specifiers.
#[tactic(auto, unfolding(c_grammar::specs::inner::Reading::initialised))]
fn first_initialised(
    parser: &mut Parser<'_>,
    room: u32,
    braces: bool,
) -> Result<Box<InitDeclarator>, Stop>
    requires { 0 < room }
    ensures reads { Moves boxed_initialised_view (first_initialised braces room (room - 1)) parser.old parser.new result }
    ensures takes { Takes parser.old parser.new result }
{
    let declarator = bare_declared(parser, room, braces)?;
    let value = initialiser(parser, room, braces)?;
    initialised(parser.alloc, declarator, value)
}

/// `"," ptr NAME dims [ "=" expr ]`
#[tactic(auto, unfolding(c_grammar::specs::inner::Reading::initialised))]
fn next_initialised(
    parser: &mut Parser<'_>,
    room: u32,
    braces: bool,
) -> Result<Box<InitDeclarator>, Stop>
    requires { 0 < room }
    ensures reads { Moves boxed_initialised_view (next_initialised braces room (room - 1)) parser.old parser.new result }
    ensures takes { Takes parser.old parser.new result }
{
    parser.expected(Mark::Comma, room)?;
    let declarator = declared(parser, room, braces)?;
    let value = initialiser(parser, room, braces)?;
    initialised(parser.alloc, declarator, value)
}

/// `{ "," ptr NAME dims [ "=" expr ] }`, behind the first declarator.
#[tactic(auto, using(parse_expressions::proofs::CodeLoops::chooses, parse_expressions::proofs::CodeLoops::choice_fails), unfolding(c_grammar::specs::inner::Readers::turns))]
pub fn more_initialised(
    parser: &mut Parser<'_>,
    first: Box<InitDeclarator>,
    room: u32,
    braces: bool,
) -> Result<Vec<InitDeclarator>, Stop>
    requires { 0 < room }
    ensures reads { Moves (λ all. map init_declarator_view all.items) (more_initialised braces room (room - 1) (boxed_initialised_view first ∷ [])) parser.old parser.new result }
    ensures keeps { Keeps parser.old parser.new result }
{
    let mut all = Vec::new(parser.alloc);
    put_inner(&mut all, first)?;
    'declarators: while parser.is_next(Mark::Comma)? {
        let next = next_initialised(parser, room, braces)?;
        put_inner(&mut all, next)?;
    }
    Ok(all)
}

/// `specs ptr NAME dims rest`, where no braces of a struct may stand.
#[tactic(auto, using(crate::proofs::CodeStatements::declaration_at, crate::proofs::CodeStatements::no_declaration))]
pub fn declaration(parser: &mut Parser<'_>, room: u32) -> Result<Declaration, Stop>
    ensures reads { Moves declaration_view (declaration room) parser.old parser.new result }
    ensures takes { Takes parser.old parser.new result }
{
    if room == 0 {
        return Err(parser.no_room_for_type());
    }
    let specs = specs(parser, room, false)?;
    let first = first_initialised(parser, room, false)?;
    let declarators = more_initialised(parser, first, room, false)?;
    parser.expected(Mark::Semicolon, room)?;
    Ok(Declaration { specs, declarators })
}
