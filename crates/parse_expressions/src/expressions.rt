//! Expressions (C11 6.5), at the level that leaves so much room; braces of a struct may stand in their types or not.

ghost use Rattle.std.specs.Prelude.{◌-◌, ◌<◌, [], map};
ghost use Rattle.c_tree.specs.SyntaxViews.{expr_view, boxed_expr_view};
ghost use Rattle.c_grammar.specs.inner.Readers.{links, made, nothing, full, row_from};
ghost use Rattle.parse_tokens.specs.inner.Moves.{Moves, Takes, Keeps};
ghost use Rattle.c_grammar.specs.inner.Reading.{level_at, arguments, operand, post, posted, begins_post, group_rest, unary_by, paren_rest, ladder, casted, either, commas};
ghost use Rattle.c_grammar.specs.inner.Tokens.{tok, text_of, is_text, begins_expr};
ghost use Rattle.parse_tokens.specs.inner.Starts.{unary_view};
ghost use Rattle.parse_expressions.specs.inner.Operands.{sized_view};

use crate::boxes::{one, put, put_inner};
use crate::building;
use crate::building::{
    arrow, binary, boxed_expr, conditional, group, index, member, prefixed, sizeof_expr,
};
use crate::types::type_name;
use c_lex::{Mark, Word};
use c_tree::syntax::{Expr, Span, TypeName};
use parse_tokens::parser::{Parser, Stop};
use parse_tokens::peeking::{OperandStart, PostStart, UnaryStart};

/// The operand of `sizeof`.
#[derive(Drop)]
pub enum SizeofOperand {
    Type(TypeName),
    Expr(Box<Expr>),
}

/// expr
#[cycle(expressions)]
#[tactic(auto, using(crate::proofs::CodeLoops::chooses, crate::proofs::CodeLoops::choice_fails, crate::proofs::CodeLevels::expr_at, crate::proofs::CodeLevels::no_expr), unfolding(c_grammar::specs::inner::Reading::expr))]
pub fn expr(parser: &mut Parser<'_>, room: u32, braces: bool) -> Result<Box<Expr>, Stop>
    ensures reads { Moves boxed_expr_view (level_at braces room).expr parser.old parser.new result }
    ensures takes { Takes parser.old parser.new result }
{
    if room == 0 {
        return Err(parser.no_room_for_expr());
    }
    let first = ladder(parser, 10, room, braces)?;
    if !parser.is_next(Mark::Question)? {
        return Ok(first);
    }
    let place = parser.place_of(Mark::Question, room)?;
    let then = expr(parser, room - 1, braces)?;
    parser.expected(Mark::Colon, room)?;
    let otherwise = expr(parser, room - 1, braces)?;
    conditional(parser.alloc, place, first, then, otherwise)
}

/// An expression of so many heights of binary operators.
#[cycle(expressions)]
#[tactic(auto, using(crate::proofs::CodeLoops::chooses, crate::proofs::CodeLoops::choice_fails), unfolding(c_grammar::specs::inner::Reading::ladder, c_grammar::specs::inner::Readers::turns))]
fn ladder(parser: &mut Parser<'_>, heights: u32, room: u32, braces: bool) -> Result<Box<Expr>, Stop>
    requires { 0 < room }
    ensures reads { Moves boxed_expr_view (ladder room (casted room (room - 1) (level_at braces (room - 1))) heights) parser.old parser.new result }
    ensures takes { Takes parser.old parser.new result }
{
    if heights == 0 {
        return casted(parser, room, braces);
    }
    let first = ladder(parser, heights - 1, room, braces)?;
    let mut left = first;
    'operators: while parser.is_binary_next(heights - 1)? {
        let (place, op) = parser.binary_op(heights - 1, room)?;
        let right = ladder(parser, heights - 1, room, braces)?;
        left = binary(parser.alloc, place, op, left, right)?;
    }
    Ok(left)
}

/// cast, where there is room
#[cycle(expressions)]
#[tactic(auto, using(crate::proofs::CodeLoops::chooses, crate::proofs::CodeLoops::choice_fails), unfolding(c_grammar::specs::inner::Reading::casted))]
fn casted(parser: &mut Parser<'_>, room: u32, braces: bool) -> Result<Box<Expr>, Stop>
    requires { 0 < room }
    ensures reads { Moves boxed_expr_view (casted room (room - 1) (level_at braces (room - 1))) parser.old parser.new result }
    ensures takes { Takes parser.old parser.new result }
{
    match parser.unary_start()? {
        UnaryStart::Paren => {
            let place = parser.place_of(Mark::OpenParen, room - 1)?;
            paren_rest(parser, place, room, braces)
        }
        start => unary_by(parser, start, room, braces),
    }
}

/// cast
#[cycle(expressions)]
#[tactic(auto, using(crate::proofs::CodeLevels::cast_at, crate::proofs::CodeLevels::no_cast))]
fn cast(parser: &mut Parser<'_>, room: u32, braces: bool) -> Result<Box<Expr>, Stop>
    ensures reads { Moves boxed_expr_view (level_at braces room).cast parser.old parser.new result }
    ensures takes { Takes parser.old parser.new result }
{
    if room == 0 {
        return Err(parser.no_room_for_expr());
    }
    casted(parser, room, braces)
}

/// `specs ptr ")" cast | expr ")"` with postfix operators, behind the opening bracket at the place
#[cycle(expressions)]
#[tactic(auto, using(crate::proofs::CodeLoops::chooses, crate::proofs::CodeLoops::choice_fails), unfolding(c_grammar::specs::inner::Reading::paren_rest))]
fn paren_rest(
    parser: &mut Parser<'_>,
    place: u32,
    room: u32,
    braces: bool,
) -> Result<Box<Expr>, Stop>
    requires { 0 < room }
    ensures reads { Moves boxed_expr_view (paren_rest room (room - 1) (level_at braces (room - 1)) place) parser.old parser.new result }
    ensures takes { Takes parser.old parser.new result }
{
    if !parser.is_type_next()? {
        return group_rest(parser, room, braces);
    }
    let to = type_name(parser, room - 1, braces)?;
    parser.expected(Mark::CloseParen, room - 1)?;
    let operand = cast(parser, room - 1, braces)?;
    building::cast(parser.alloc, place, to, operand)
}

/// `expr ")"`, behind the opening bracket, with the postfix operators behind it
#[cycle(expressions)]
#[tactic(auto, unfolding(c_grammar::specs::inner::Reading::group_rest))]
fn group_rest(parser: &mut Parser<'_>, room: u32, braces: bool) -> Result<Box<Expr>, Stop>
    requires { 0 < room }
    ensures reads { Moves boxed_expr_view (group_rest room (room - 1) (level_at braces (room - 1))) parser.old parser.new result }
    ensures takes { Takes parser.old parser.new result }
{
    let inside = expr(parser, room - 1, braces)?;
    parser.expected(Mark::CloseParen, room - 1)?;
    let first = group(parser.alloc, inside)?;
    posted(parser, first, room, braces)
}

/// Postfix operators behind a primary
#[cycle(expressions)]
#[tactic(auto, using(crate::proofs::CodeLoops::chooses, crate::proofs::CodeLoops::choice_fails), unfolding(c_grammar::specs::inner::Readers::turns))]
fn posted(
    parser: &mut Parser<'_>,
    first: Box<Expr>,
    room: u32,
    braces: bool,
) -> Result<Box<Expr>, Stop>
    requires { 0 < room }
    ensures reads { Moves boxed_expr_view (links (λ _. begins_post) (λ _. post room (room - 1) (level_at braces (room - 1))) posted (boxed_expr_view first)) parser.old parser.new result }
    ensures keeps { Keeps parser.old parser.new result }
{
    let mut base = first;
    'posts: while parser.is_post_next()? {
        base = post(parser, base, room, braces)?;
    }
    Ok(base)
}

/// `"[" expr "]" | "." TNAME | "->" TNAME`, behind its base
#[cycle(expressions)]
#[tactic(auto, using(crate::proofs::CodeLoops::chooses, crate::proofs::CodeLoops::choice_fails), unfolding(c_grammar::specs::inner::Reading::post))]
fn post(
    parser: &mut Parser<'_>,
    base: Box<Expr>,
    room: u32,
    braces: bool,
) -> Result<Box<Expr>, Stop>
    requires { 0 < room }
    ensures reads { Moves boxed_expr_view (made (posted (boxed_expr_view base)) (post room (room - 1) (level_at braces (room - 1)))) parser.old parser.new result }
    ensures takes { Takes parser.old parser.new result }
{
    match parser.post_start()? {
        PostStart::Bracket => {
            let place = parser.place_of_operator(Mark::OpenBracket, room - 1)?;
            let at = expr(parser, room - 1, braces)?;
            parser.expected(Mark::CloseBracket, room - 1)?;
            index(parser.alloc, place, base, at)
        }
        PostStart::Dot => {
            let place = parser.place_of_operator(Mark::Dot, room)?;
            let name = parser.tag(room)?;
            member(parser.alloc, place, base, name)
        }
        PostStart::Arrow => {
            let place = parser.place_of_operator(Mark::Arrow, room)?;
            let name = parser.tag(room)?;
            arrow(parser.alloc, place, base, name)
        }
    }
}

/// What a unary expression is that begins so
#[cycle(expressions)]
#[tactic(auto, using(crate::proofs::CodeLoops::chooses, crate::proofs::CodeLoops::choice_fails))]
fn unary_by(
    parser: &mut Parser<'_>,
    start: UnaryStart,
    room: u32,
    braces: bool,
) -> Result<Box<Expr>, Stop>
    requires { 0 < room }
    ensures reads { Moves boxed_expr_view (unary_by room (room - 1) (level_at braces (room - 1)) (unary_view start)) parser.old parser.new result }
    ensures takes { Takes parser.old parser.new result }
{
    match start {
        UnaryStart::Primary => {
            let first = operand(parser, room, braces)?;
            posted(parser, first, room, braces)
        }
        UnaryStart::Paren => {
            parser.expected(Mark::OpenParen, room - 1)?;
            group_rest(parser, room, braces)
        }
        UnaryStart::Prefix => {
            let (place, op) = parser.prefix_op(room)?;
            let operand = cast(parser, room - 1, braces)?;
            prefixed(parser.alloc, place, op, operand)
        }
        UnaryStart::Sizeof => {
            let place = parser.place_of_word(Word::Sizeof, room)?;
            match sized(parser, room - 1, braces)? {
                SizeofOperand::Type(of) => boxed_expr(parser.alloc, Expr::SizeofType { place, of }),
                SizeofOperand::Expr(operand) => sizeof_expr(parser.alloc, place, operand),
            }
        }
    }
}

/// `"(" specs ptr ")" | unary`, behind `sizeof`
#[cycle(expressions)]
#[tactic(auto, using(crate::proofs::CodeLoops::chooses, crate::proofs::CodeLoops::choice_fails, crate::proofs::CodeLevels::sized_at, crate::proofs::CodeLevels::no_sized), unfolding(c_grammar::specs::inner::Reading::sized, c_grammar::specs::inner::Reading::unary))]
fn sized(parser: &mut Parser<'_>, room: u32, braces: bool) -> Result<SizeofOperand, Stop>
    ensures reads { Moves sized_view (level_at braces room).sized parser.old parser.new result }
    ensures takes { Takes parser.old parser.new result }
{
    if room == 0 {
        return Err(parser.no_room_for_expr());
    }
    if !parser.is_next(Mark::OpenParen)? {
        let start = parser.unary_start()?;
        let operand = unary_by(parser, start, room, braces)?;
        return Ok(SizeofOperand::Expr(operand));
    }
    parser.expected(Mark::OpenParen, room - 1)?;
    if !parser.is_type_next()? {
        let operand = group_rest(parser, room, braces)?;
        return Ok(SizeofOperand::Expr(operand));
    }
    let of = type_name(parser, room - 1, braces)?;
    parser.expected(Mark::CloseParen, room - 1)?;
    Ok(SizeofOperand::Type(of))
}

/// A primary that isn't in brackets
#[cycle(expressions)]
#[tactic(auto, using(crate::proofs::CodeLoops::chooses, crate::proofs::CodeLoops::choice_fails), unfolding(c_grammar::specs::inner::Reading::operand, c_grammar::specs::inner::Reading::named, c_grammar::specs::inner::Reading::texts))]
fn operand(parser: &mut Parser<'_>, room: u32, braces: bool) -> Result<Box<Expr>, Stop>
    requires { 0 < room }
    ensures reads { Moves boxed_expr_view (operand room (room - 1) (level_at braces (room - 1))) parser.old parser.new result }
    ensures takes { Takes parser.old parser.new result }
{
    match parser.operand_start()? {
        OperandStart::Name => {
            let callee = parser.name(room)?;
            if !parser.is_next(Mark::OpenParen)? {
                return boxed_expr(parser.alloc, Expr::Name(callee));
            }
            let args = arguments(parser, room, braces)?;
            boxed_expr(parser.alloc, Expr::Call { callee, args })
        }
        OperandStart::Int => {
            let (place, value) = parser.int(room)?;
            boxed_expr(parser.alloc, Expr::Int { place, value })
        }
        OperandStart::Char => {
            let (place, value) = parser.char(room)?;
            boxed_expr(parser.alloc, Expr::Char { place, value })
        }
        OperandStart::Text => {
            let parts = texts(parser, room)?;
            boxed_expr(parser.alloc, Expr::Text(parts))
        }
        OperandStart::Null => {
            let place = parser.place_of_word(Word::Null, room)?;
            boxed_expr(parser.alloc, Expr::Null { place })
        }
    }
}

/// `"(" [ expr { "," expr } ] ")"`
#[cycle(expressions)]
#[tactic(auto, using(crate::proofs::CodeLoops::chooses, crate::proofs::CodeLoops::choice_fails), unfolding(c_grammar::specs::inner::Reading::arguments, c_grammar::specs::inner::Readers::turns))]
fn arguments(parser: &mut Parser<'_>, room: u32, braces: bool) -> Result<Vec<Expr>, Stop>
    requires { 0 < room }
    ensures reads { Moves (λ all. map expr_view all.items) (arguments (room - 1) (level_at braces (room - 1))) parser.old parser.new result }
    ensures takes { Takes parser.old parser.new result }
{
    parser.expected(Mark::OpenParen, room - 1)?;
    let all = exprs(parser, room, braces)?;
    parser.expected(Mark::CloseParen, room - 1)?;
    Ok(all)
}

/// `[ expr { "," expr } ]`
#[cycle(expressions)]
#[tactic(auto, using(crate::proofs::CodeLoops::chooses, crate::proofs::CodeLoops::choice_fails), unfolding(c_grammar::specs::inner::Readers::turns))]
fn exprs(parser: &mut Parser<'_>, room: u32, braces: bool) -> Result<Vec<Expr>, Stop>
    requires { 0 < room }
    ensures reads { Moves (λ all. map expr_view all.items) (either begins_expr (commas (room - 1) (level_at braces (room - 1)).expr (level_at braces (room - 1)).expr) (nothing [])) parser.old parser.new result }
    ensures keeps { Keeps parser.old parser.new result }
{
    if !parser.is_expr_next()? {
        return Ok(Vec::new(parser.alloc));
    }
    let first = expr(parser, room - 1, braces)?;
    let mut all = Vec::new(parser.alloc);
    put_inner(&mut all, first)?;
    'exprs: while parser.is_next(Mark::Comma)? {
        parser.expected(Mark::Comma, room - 1)?;
        let more = expr(parser, room - 1, braces)?;
        put_inner(&mut all, more)?;
    }
    Ok(all)
}

/// unary
#[tactic(auto, using(crate::proofs::CodeLoops::chooses, crate::proofs::CodeLoops::choice_fails, crate::proofs::CodeLevels::unary_at, crate::proofs::CodeLevels::no_unary), unfolding(c_grammar::specs::inner::Reading::unary))]
fn unary(parser: &mut Parser<'_>, room: u32, braces: bool) -> Result<Box<Expr>, Stop>
    ensures reads { Moves boxed_expr_view (level_at braces room).unary parser.old parser.new result }
    ensures takes { Takes parser.old parser.new result }
{
    if room == 0 {
        return Err(parser.no_room_for_expr());
    }
    let start = parser.unary_start()?;
    unary_by(parser, start, room, braces)
}

/// expr, a full expression, whose operators are counted from none on
#[cycle(expressions)]
pub fn full_expr(parser: &mut Parser<'_>, room: u32, braces: bool) -> Result<Box<Expr>, Stop>
    ensures reads { Moves boxed_expr_view (full (level_at braces room).expr) parser.old parser.new result }
    ensures takes { Takes parser.old parser.new result }
{
    let count = parser.count;
    parser.count = 0;
    let e = expr(parser, room, braces)?;
    parser.count = count;
    Ok(e)
}

/// unary, a full expression
pub fn full_unary(parser: &mut Parser<'_>, room: u32, braces: bool) -> Result<Box<Expr>, Stop>
    ensures reads { Moves boxed_expr_view (full (level_at braces room).unary) parser.old parser.new result }
    ensures takes { Takes parser.old parser.new result }
{
    let count = parser.count;
    parser.count = 0;
    let e = unary(parser, room, braces)?;
    parser.count = count;
    Ok(e)
}

/// `STRING { STRING }`
#[tactic(auto, using(crate::proofs::CodeLoops::chooses, crate::proofs::CodeLoops::choice_fails), unfolding(c_grammar::specs::inner::Readers::turns))]
fn texts(parser: &mut Parser<'_>, room: u32) -> Result<Vec<Span>, Stop>
    ensures reads { Moves (λ all. all.items) (row_from (tok room text_of) is_text (tok room text_of)) parser.old parser.new result }
    ensures takes { Takes parser.old parser.new result }
{
    let first = parser.text(room)?;
    let mut all = one(parser.alloc, first)?;
    'texts: while parser.is_text_next()? {
        let more = parser.text(room)?;
        put(&mut all, more)?;
    }
    Ok(all)
}
