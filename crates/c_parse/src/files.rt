//! Files (C11 6.9): external declarations and functions.

ghost use Rattle.std.specs.Prelude.{◌+◌, ◌^◌, ◌<◌, [], map};
ghost use Rattle.std.specs.Option.{option_map};
ghost use Rattle.c_tree.specs.SyntaxViews.{param_dim_view, param_view, body_view, rest_view, external_view, view};
ghost use Rattle.c_parse.specs.inner.Boxes.{boxed_initialised_view, boxed_param_dim_view};
ghost use Rattle.parse_tokens.specs.inner.Moves.{Moves, Takes, Keeps};
ghost use Rattle.c_grammar.specs.inner.Readers.{maybe};
ghost use Rattle.c_grammar.specs.inner.Tokens.{tok, name_of};
ghost use Rattle.c_grammar.specs.inner.Reading.{is_name, param_dim, param, params, body, variable_rest, named_rest, external_rest, typedef, external, file};
ghost use Rattle.c_parse.specs.inner.Parts.{param_dims, next_param, param_row, maybe_params, storage_row, first_variable, function_rest, declared_rest, other_external, external_row, whole_file};

use crate::building;
use crate::building::initialised;
use crate::declarations::more_initialised;
use crate::parts::maybe_expr;
use crate::starts::is_external_next;
use crate::statements::block;
use c_lex::{Mark, Word};
use c_tree::syntax::{
    Block, Declarator, External, InitDeclarator, Name, Param, ParamDim, Pointer, Program, Rest,
    Storage,
};
use parse_expressions::boxes::{one, put, put_inner};
use parse_expressions::pointers::{bare_pointers, stars};
use parse_expressions::types::{any_declared, are_typed, dims, initialiser, specs};
use parse_tokens::parser::{Parser, Stop};

/// The room at file scope: a file is of level 0, and 128 levels may lie in it.
const FILE: u32 = 129;
/// The room of what is bracketed at file scope.
const INNER: u32 = 128;
/// The room of what is bracketed there.
const INMOST: u32 = 127;

// Parameters (C11 6.7.6.3).

/// `"[" [ expr ] "]"`, behind so many stars and dimensions
#[tactic(auto, unfolding(c_grammar::specs::inner::Reading::param_dim))]
fn param_dim(parser: &mut Parser<'_>, before: usize) -> Result<Box<ParamDim>, Stop>
    ensures reads { Moves boxed_param_dim_view (param_dim 127 before) parser.old parser.new result }
    ensures takes { Takes parser.old parser.new result }
{
    let place = parser.place_of_dimension(Mark::OpenBracket, before, INMOST)?;
    let size = maybe_expr(parser, INMOST)?;
    parser.expected(Mark::CloseBracket, INMOST)?;
    building::param_dim(parser.alloc, place, size)
}

/// `{ "[" [ expr ] "]" }`, behind so many stars
#[tactic(auto, using(parse_expressions::proofs::CodeLoops::chooses, parse_expressions::proofs::CodeLoops::choice_fails), unfolding(c_grammar::specs::inner::Readers::turns, crate::specs::inner::Parts::param_dims))]
fn param_dims(parser: &mut Parser<'_>, before: usize) -> Result<Vec<ParamDim>, Stop>
    requires { before < 2 ^ 63 }
    ensures reads { Moves (λ all. map param_dim_view all.items) (param_dims 127 before) parser.old parser.new result }
    ensures keeps { Keeps parser.old parser.new result }
{
    let mut all = Vec::new(parser.alloc);
    'dims: while parser.is_next(Mark::OpenBracket)? {
        let dim = param_dim(parser, before + all.len())?;
        put_inner(&mut all, dim)?;
    }
    Ok(all)
}

/// `[ NAME ]`
#[tactic(auto, using(parse_expressions::proofs::CodeLoops::chooses, parse_expressions::proofs::CodeLoops::choice_fails))]
fn maybe_name(parser: &mut Parser<'_>, room: u32) -> Result<Option<Name>, Stop>
    ensures reads { Moves (λ a. a) (maybe is_name (tok room name_of)) parser.old parser.new result }
    ensures keeps { Keeps parser.old parser.new result }
{
    if !parser.is_name_next()? {
        return Ok(None);
    }
    let name = parser.name(room)?;
    Ok(Some(name))
}

/// `param`
#[tactic(auto, using(crate::proofs::CodeStatements::param_is, parse_expressions::proofs::CodeLists::stars_few))]
fn param(parser: &mut Parser<'_>) -> Result<Param, Stop>
    ensures reads { Moves param_view (param 128 127) parser.old parser.new result }
    ensures takes { Takes parser.old parser.new result }
{
    let specs = specs(parser, INNER, false)?;
    let pointers = bare_pointers(parser, INNER)?;
    let name = maybe_name(parser, INNER)?;
    let before = stars(&pointers);
    let dims = param_dims(parser, before)?;
    Ok(Param {
        specs,
        pointers,
        name,
        dims,
    })
}

/// `"," param`
fn next_param(parser: &mut Parser<'_>) -> Result<Param, Stop>
    ensures reads { Moves param_view next_param parser.old parser.new result }
    ensures takes { Takes parser.old parser.new result }
{
    parser.expected(Mark::Comma, INNER)?;
    param(parser)
}

/// `param { "," param }`
#[tactic(auto, using(parse_expressions::proofs::CodeLoops::chooses, parse_expressions::proofs::CodeLoops::choice_fails), unfolding(c_grammar::specs::inner::Readers::turns))]
fn param_row(parser: &mut Parser<'_>) -> Result<Vec<Param>, Stop>
    ensures reads { Moves (λ all. map param_view all.items) param_row parser.old parser.new result }
    ensures takes { Takes parser.old parser.new result }
{
    let first = param(parser)?;
    let mut all = one(parser.alloc, first)?;
    'params: while parser.is_next(Mark::Comma)? {
        let next = next_param(parser)?;
        put(&mut all, next)?;
    }
    Ok(all)
}

/// `[ params ]`
#[tactic(auto, using(parse_expressions::proofs::CodeLoops::chooses, parse_expressions::proofs::CodeLoops::choice_fails))]
fn maybe_params(parser: &mut Parser<'_>) -> Result<Vec<Param>, Stop>
    ensures reads { Moves (λ all. map param_view all.items) maybe_params parser.old parser.new result }
    ensures keeps { Keeps parser.old parser.new result }
{
    if !parser.is_type_next()? {
        return Ok(Vec::new(parser.alloc));
    }
    param_row(parser)
}

/// `"(" [ params ] ")"`
#[tactic(auto, unfolding(c_grammar::specs::inner::Reading::params))]
fn params(parser: &mut Parser<'_>) -> Result<Vec<Param>, Stop>
    ensures reads { Moves (λ all. map param_view all.items) params parser.old parser.new result }
    ensures takes { Takes parser.old parser.new result }
{
    parser.expected(Mark::OpenParen, INNER)?;
    let all = maybe_params(parser)?;
    parser.expected(Mark::CloseParen, INNER)?;
    Ok(all)
}

// External declarations.

/// `body | ";"`
#[tactic(auto, unfolding(c_grammar::specs::inner::Reading::body), using(parse_expressions::proofs::CodeLoops::chooses, parse_expressions::proofs::CodeLoops::choice_fails))]
fn body(parser: &mut Parser<'_>) -> Result<Option<Block>, Stop>
    ensures reads { Moves (option_map body_view) body parser.old parser.new result }
    ensures takes { Takes parser.old parser.new result }
{
    if !parser.is_next(Mark::OpenBrace)? {
        parser.expected(Mark::Semicolon, FILE)?;
        return Ok(None);
    }
    let block = block(parser, INNER)?;
    Ok(Some(block))
}

/// `"(" [ params ] ")" ( body | ";" )`, behind the name.
fn function_rest(parser: &mut Parser<'_>, pointers: Vec<Pointer>, name: Name) -> Result<Rest, Stop>
    ensures reads { Moves rest_view (function_rest pointers.items name) parser.old parser.new result }
    ensures takes { Takes parser.old parser.new result }
{
    let params = params(parser)?;
    let body = body(parser)?;
    Ok(Rest::Function {
        pointers,
        name,
        params,
        body,
    })
}

/// `dims [ "=" expr ]`, behind the name.
fn first_variable(
    parser: &mut Parser<'_>,
    pointers: Vec<Pointer>,
    name: Name,
) -> Result<Box<InitDeclarator>, Stop>
    ensures reads { Moves boxed_initialised_view (first_variable pointers.items name) parser.old parser.new result }
    ensures keeps { Keeps parser.old parser.new result }
{
    let before = stars(&pointers);
    let dims = dims(parser, before, FILE, true)?;
    let value = initialiser(parser, FILE, true)?;
    let declarator = Declarator {
        pointers,
        name,
        dims,
    };
    initialised(parser.alloc, declarator, value)
}

/// `dims rest`, behind the name.
#[tactic(auto, using(crate::proofs::CodeVariables::variable_is))]
fn variable_rest(parser: &mut Parser<'_>, pointers: Vec<Pointer>, name: Name) -> Result<Rest, Stop>
    ensures reads { Moves rest_view (variable_rest pointers.items name) parser.old parser.new result }
    ensures takes { Takes parser.old parser.new result }
{
    let first = first_variable(parser, pointers, name)?;
    let declarators = more_initialised(parser, first, FILE, true)?;
    parser.expected(Mark::Semicolon, FILE)?;
    Ok(Rest::Variables(declarators))
}

/// What is behind the name at file scope.
#[tactic(auto, unfolding(c_grammar::specs::inner::Reading::named_rest), using(parse_expressions::proofs::CodeLoops::chooses, parse_expressions::proofs::CodeLoops::choice_fails))]
fn named_rest(parser: &mut Parser<'_>, pointers: Vec<Pointer>, name: Name) -> Result<Rest, Stop>
    ensures reads { Moves rest_view (named_rest pointers.items name) parser.old parser.new result }
    ensures takes { Takes parser.old parser.new result }
{
    if parser.is_next(Mark::OpenParen)? {
        return function_rest(parser, pointers, name);
    }
    variable_rest(parser, pointers, name)
}

/// `ptr NAME ( "(" [ params ] ")" ( body | ";" ) | dims rest )`
fn declared_rest(parser: &mut Parser<'_>) -> Result<Rest, Stop>
    ensures reads { Moves rest_view declared_rest parser.old parser.new result }
    ensures takes { Takes parser.old parser.new result }
{
    let pointers = bare_pointers(parser, FILE)?;
    let name = parser.name(FILE)?;
    named_rest(parser, pointers, name)
}

/// What is behind the specifiers at file scope.
#[tactic(auto, unfolding(c_grammar::specs::inner::Reading::external_rest), using(parse_expressions::proofs::CodeLoops::chooses, parse_expressions::proofs::CodeLoops::choice_fails))]
fn external_rest(parser: &mut Parser<'_>) -> Result<Rest, Stop>
    ensures reads { Moves rest_view external_rest parser.old parser.new result }
    ensures takes { Takes parser.old parser.new result }
{
    if !parser.is_next(Mark::Semicolon)? {
        return declared_rest(parser);
    }
    parser.expected(Mark::Semicolon, FILE)?;
    Ok(Rest::Nothing)
}

/// `{ "static" | "inline" }`
#[tactic(auto, using(parse_expressions::proofs::CodeLoops::chooses, parse_expressions::proofs::CodeLoops::choice_fails), unfolding(c_grammar::specs::inner::Readers::turns))]
fn storage_row(parser: &mut Parser<'_>) -> Result<Vec<Storage>, Stop>
    ensures reads { Moves (λ all. all.items) storage_row parser.old parser.new result }
    ensures keeps { Keeps parser.old parser.new result }
{
    let mut all = Vec::new(parser.alloc);
    'storages: while parser.is_storage_next()? {
        let storage = parser.storage(FILE)?;
        put(&mut all, storage)?;
    }
    Ok(all)
}

/// `"typedef" specs ptr TNAME dims { "," ptr TNAME dims } ";"`
#[tactic(auto, unfolding(c_grammar::specs::inner::Reading::typedef))]
fn typedef(parser: &mut Parser<'_>) -> Result<External, Stop>
    ensures reads { Moves external_view typedef parser.old parser.new result }
    ensures takes { Takes parser.old parser.new result }
{
    parser.expected_word(Word::Typedef, FILE)?;
    let specs = specs(parser, FILE, true)?;
    let typed = are_typed(&specs);
    let declarators = any_declared(parser, typed, FILE)?;
    Ok(External::Typedef { specs, declarators })
}

/// `{ "static" | "inline" } specs` and the rest
fn other_external(parser: &mut Parser<'_>) -> Result<External, Stop>
    ensures reads { Moves external_view other_external parser.old parser.new result }
    ensures takes { Takes parser.old parser.new result }
{
    let storage = storage_row(parser)?;
    let specs = specs(parser, FILE, true)?;
    let rest = external_rest(parser)?;
    Ok(External::Other {
        storage,
        specs,
        rest,
    })
}

/// `external`
#[tactic(auto, unfolding(c_grammar::specs::inner::Reading::external), using(parse_expressions::proofs::CodeLoops::chooses, parse_expressions::proofs::CodeLoops::choice_fails))]
fn external(parser: &mut Parser<'_>) -> Result<External, Stop>
    ensures reads { Moves external_view external parser.old parser.new result }
    ensures takes { Takes parser.old parser.new result }
{
    if parser.is_word_next(Word::Typedef)? {
        return typedef(parser);
    }
    other_external(parser)
}

/// `{ external }`
#[tactic(auto, using(parse_expressions::proofs::CodeLoops::chooses, parse_expressions::proofs::CodeLoops::choice_fails), unfolding(c_grammar::specs::inner::Readers::turns))]
fn external_row(parser: &mut Parser<'_>) -> Result<Vec<External>, Stop>
    ensures reads { Moves (λ all. map external_view all.items) external_row parser.old parser.new result }
    ensures keeps { Keeps parser.old parser.new result }
{
    let mut all = Vec::new(parser.alloc);
    'externals: while is_external_next(parser)? {
        let external = external(parser)?;
        put(&mut all, external)?;
    }
    Ok(all)
}

/// `file`
#[tactic(auto, unfolding(c_grammar::specs::inner::Reading::file))]
fn file(parser: &mut Parser<'_>) -> Result<Program, Stop>
    ensures { Moves view file parser.old parser.new result }
{
    let externals = external_row(parser)?;
    parser.end(FILE)?;
    Ok(Program { externals })
}

/// `file`, and nothing behind it.
pub fn whole_file(parser: &mut Parser<'_>) -> Result<Program, Stop>
    ensures { Moves view whole_file parser.old parser.new result }
{
    let program = file(parser)?;
    match parser.rest {
        [] => Ok(program),
        _ => Err(parser.unexpected()),
    }
}
