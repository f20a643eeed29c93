//! Statements (C11 6.8).

ghost use Rattle.std.specs.Prelude.{◌≡◌, ◌-◌, ◌<◌, ◌==◌, map};
ghost use Rattle.std.specs.Option.{option_map};
ghost use Rattle.c_tree.specs.SyntaxViews.{expr_view, boxed_expr_view, stmt_view, boxed_stmt_view};
ghost use Rattle.c_grammar.specs.Grammar.{rank};
ghost use Rattle.c_parse.specs.inner.Boxes.{boxed_simple_view, boxed_first_view};
ghost use Rattle.c_grammar.specs.inner.Readers.{full, maybe};
ghost use Rattle.c_grammar.specs.inner.Tokens.{begins_simple};
ghost use Rattle.parse_tokens.specs.inner.Moves.{Moves, Takes, Keeps};
ghost use Rattle.c_grammar.specs.inner.Reading.{simply, simple_of, condition, first, items, label, entries, stmt_at, stmt_by, ABlock, AnIf, AWhile, AFor, ADo, ASwitch};
ghost use Rattle.c_parse.specs.inner.Parts.{behind, assigned, simple_first_at, short_first_at, for_condition, for_step, for_head, head_view, empty_at, break_at, continue_at, return_at, simple_stmt_at, block_view, item_at, item_row, case_at, default_at, entry_at, entry_row, otherwise};

use crate::building::{
    ForHead, after, assign, before, boxed_stmt, case_of, declare_of, do_of, eval, first_declare,
    first_nothing, first_simple, for_of, if_of, return_of, simple_of, switch_of, while_of,
};
use crate::declarations::declaration;
use crate::parts::{marked, maybe_expr};
use crate::starts::{
    StmtStart, TailStart, is_entry_next, is_item_next, is_label_next, no_room_for_simple,
    no_room_for_stmt, stmt_start, tail_start,
};
use c_lex::{Mark, Word};
use c_tree::syntax::{Block, Expr, ForFirst, Simple, Stmt};
use parse_expressions::boxes::put_inner;
use parse_expressions::expressions::{expr, full_expr, full_unary};
use parse_tokens::parser::{Parser, Stop};

/// Whether an expression is a postfix one, behind which alone `++` and `--` may stand (C11 6.5.2).
fn is_postfix(expr: &Expr) -> bool
    ensures { result ≡ (rank (expr_view expr.now) == 0) }
{
    !matches!(
        expr,
        Expr::Prefix { .. }
            | Expr::SizeofType { .. }
            | Expr::SizeofExpr { .. }
            | Expr::Cast { .. }
            | Expr::Binary { .. }
            | Expr::Conditional { .. }
    )
}

// Simple statements.

/// `assign expr | "++" | "--"` behind an expression, or nothing.
#[tactic(auto, using(parse_expressions::proofs::CodeLoops::chooses, parse_expressions::proofs::CodeLoops::choice_fails))]
fn behind(parser: &mut Parser<'_>, target: Box<Expr>, room: u32) -> Result<Box<Simple>, Stop>
    ensures reads { Moves boxed_simple_view (behind room (boxed_expr_view target)) parser.old parser.new result }
    ensures keeps { Keeps parser.old parser.new result }
{
    match tail_start(parser, is_postfix(&target))? {
        TailStart::Step => {
            let (place, op) = parser.step_op(room)?;
            after(parser.alloc, place, op, target)
        }
        TailStart::Assign => {
            let (place, op) = parser.assign_op(room)?;
            let value = expr(parser, room, false)?;
            assign(parser.alloc, place, op, target, value)
        }
        TailStart::Nothing => eval(parser.alloc, target),
    }
}

/// `expr [ assign expr ] | postfix ( "++" | "--" )`: one full expression.
fn assigned(parser: &mut Parser<'_>, room: u32) -> Result<Box<Simple>, Stop>
    ensures reads { Moves boxed_simple_view (assigned room) parser.old parser.new result }
    ensures takes { Takes parser.old parser.new result }
{
    let count = parser.count;
    parser.count = 0;
    let target = expr(parser, room, false)?;
    let simple = behind(parser, target, room)?;
    parser.count = count;
    Ok(simple)
}

/// `simple`
#[tactic(auto, using(parse_expressions::proofs::CodeLoops::chooses, parse_expressions::proofs::CodeLoops::choice_fails, crate::proofs::CodeStatements::simple_at, crate::proofs::CodeStatements::no_simple))]
pub fn simply(parser: &mut Parser<'_>, room: u32) -> Result<Box<Simple>, Stop>
    ensures reads { Moves boxed_simple_view (simply room) parser.old parser.new result }
    ensures takes { Takes parser.old parser.new result }
{
    if room == 0 {
        return Err(no_room_for_simple(parser));
    }
    if !parser.is_step_next()? {
        return assigned(parser, room);
    }
    let (place, op) = parser.step_op(room)?;
    let target = full_unary(parser, room - 1, false)?;
    before(parser.alloc, place, op, target)
}

/// `[ simple ]`
#[tactic(auto, using(parse_expressions::proofs::CodeLoops::chooses, parse_expressions::proofs::CodeLoops::choice_fails))]
fn maybe_simple(parser: &mut Parser<'_>, room: u32) -> Result<Option<Box<Simple>>, Stop>
    ensures reads { Moves (option_map boxed_simple_view) (maybe begins_simple (simply room)) parser.old parser.new result }
    ensures keeps { Keeps parser.old parser.new result }
{
    if !parser.is_simple_next()? {
        return Ok(None);
    }
    let simple = simply(parser, room)?;
    Ok(Some(simple))
}

/// `"(" expr ")"` behind a word.
#[tactic(auto, unfolding(c_grammar::specs::inner::Reading::condition))]
fn condition(parser: &mut Parser<'_>, room: u32) -> Result<Box<Expr>, Stop>
    ensures reads { Moves boxed_expr_view (condition room) parser.old parser.new result }
    ensures takes { Takes parser.old parser.new result }
{
    parser.expected(Mark::OpenParen, room)?;
    let condition = full_expr(parser, room, false)?;
    marked(parser, condition, Mark::CloseParen, room)
}

/// `simple ";"`, first between the brackets of a `for`.
fn simple_first(parser: &mut Parser<'_>, room: u32) -> Result<Box<ForFirst>, Stop>
    ensures reads { Moves boxed_first_view (simple_first_at room) parser.old parser.new result }
    ensures takes { Takes parser.old parser.new result }
{
    let simple = simply(parser, room)?;
    parser.expected(Mark::Semicolon, room)?;
    first_simple(parser.alloc, simple)
}

/// `[ simple ] ";"`, first between the brackets of a `for`.
#[tactic(auto, using(parse_expressions::proofs::CodeLoops::chooses, parse_expressions::proofs::CodeLoops::choice_fails))]
fn short_first(parser: &mut Parser<'_>, room: u32) -> Result<Box<ForFirst>, Stop>
    ensures reads { Moves boxed_first_view (short_first_at room) parser.old parser.new result }
    ensures takes { Takes parser.old parser.new result }
{
    if !parser.is_next(Mark::Semicolon)? {
        return simple_first(parser, room);
    }
    parser.expected(Mark::Semicolon, room)?;
    first_nothing(parser.alloc)
}

/// `decl | [ simple ] ";"`, first between the brackets of a `for`.
#[tactic(auto, unfolding(c_grammar::specs::inner::Reading::first), using(parse_expressions::proofs::CodeLoops::chooses, parse_expressions::proofs::CodeLoops::choice_fails))]
fn first(parser: &mut Parser<'_>, room: u32) -> Result<Box<ForFirst>, Stop>
    ensures reads { Moves boxed_first_view (first room) parser.old parser.new result }
    ensures takes { Takes parser.old parser.new result }
{
    if !parser.is_type_next()? {
        return short_first(parser, room);
    }
    let declaration = declaration(parser, room)?;
    first_declare(parser.alloc, declaration)
}

// What stands between the brackets of a `for`.

/// `[ expr ] ";"`
fn for_condition(parser: &mut Parser<'_>, room: u32) -> Result<Option<Box<Expr>>, Stop>
    ensures reads { Moves (option_map boxed_expr_view) (for_condition room) parser.old parser.new result }
    ensures takes { Takes parser.old parser.new result }
{
    let condition = maybe_expr(parser, room)?;
    marked(parser, condition, Mark::Semicolon, room)
}

/// `[ simple ] ")"`
fn for_step(parser: &mut Parser<'_>, room: u32) -> Result<Option<Box<Simple>>, Stop>
    ensures reads { Moves (option_map boxed_simple_view) (for_step room) parser.old parser.new result }
    ensures takes { Takes parser.old parser.new result }
{
    let step = maybe_simple(parser, room)?;
    marked(parser, step, Mark::CloseParen, room)
}

/// `"(" ( decl | [ simple ] ";" ) [ expr ] ";" [ simple ] ")"`
fn for_head(parser: &mut Parser<'_>, room: u32) -> Result<ForHead, Stop>
    ensures reads { Moves head_view (for_head room) parser.old parser.new result }
    ensures takes { Takes parser.old parser.new result }
{
    parser.expected(Mark::OpenParen, room)?;
    let first = first(parser, room)?;
    let condition = for_condition(parser, room)?;
    let step = for_step(parser, room)?;
    Ok(ForHead {
        first,
        condition,
        step,
    })
}

// Statements with no statement in them.

/// `";"`
fn empty(parser: &mut Parser<'_>, room: u32) -> Result<Box<Stmt>, Stop>
    ensures reads { Moves boxed_stmt_view (empty_at room) parser.old parser.new result }
    ensures takes { Takes parser.old parser.new result }
{
    let place = parser.place_of(Mark::Semicolon, room)?;
    boxed_stmt(parser.alloc, Stmt::Empty { place })
}

/// `"break" ";"`
fn break_off(parser: &mut Parser<'_>, room: u32) -> Result<Box<Stmt>, Stop>
    ensures reads { Moves boxed_stmt_view (break_at room) parser.old parser.new result }
    ensures takes { Takes parser.old parser.new result }
{
    let place = parser.place_of_word(Word::Break, room)?;
    parser.expected(Mark::Semicolon, room)?;
    boxed_stmt(parser.alloc, Stmt::Break { place })
}

/// `"continue" ";"`
fn go_on(parser: &mut Parser<'_>, room: u32) -> Result<Box<Stmt>, Stop>
    ensures reads { Moves boxed_stmt_view (continue_at room) parser.old parser.new result }
    ensures takes { Takes parser.old parser.new result }
{
    let place = parser.place_of_word(Word::Continue, room)?;
    parser.expected(Mark::Semicolon, room)?;
    boxed_stmt(parser.alloc, Stmt::Continue { place })
}

/// `"return" [ expr ] ";"`
fn return_back(parser: &mut Parser<'_>, room: u32) -> Result<Box<Stmt>, Stop>
    ensures reads { Moves boxed_stmt_view (return_at room) parser.old parser.new result }
    ensures takes { Takes parser.old parser.new result }
{
    let place = parser.place_of_word(Word::Return, room)?;
    let value = maybe_expr(parser, room)?;
    parser.expected(Mark::Semicolon, room)?;
    return_of(parser.alloc, place, value)
}

/// `simple ";"`
fn simple_stmt(parser: &mut Parser<'_>, room: u32) -> Result<Box<Stmt>, Stop>
    ensures reads { Moves boxed_stmt_view (simple_stmt_at room) parser.old parser.new result }
    ensures takes { Takes parser.old parser.new result }
{
    let simple = simply(parser, room)?;
    parser.expected(Mark::Semicolon, room)?;
    simple_of(parser.alloc, simple)
}

// Labels.

/// `"case" expr ":"`
fn case_label(parser: &mut Parser<'_>, room: u32) -> Result<Box<Stmt>, Stop>
    ensures reads { Moves boxed_stmt_view (case_at room) parser.old parser.new result }
    ensures takes { Takes parser.old parser.new result }
{
    let place = parser.place_of_word(Word::Case, room)?;
    let value = full_expr(parser, room, false)?;
    parser.expected(Mark::Colon, room)?;
    case_of(parser.alloc, place, value)
}

/// `"default" ":"`
fn default_label(parser: &mut Parser<'_>, room: u32) -> Result<Box<Stmt>, Stop>
    ensures reads { Moves boxed_stmt_view (default_at room) parser.old parser.new result }
    ensures takes { Takes parser.old parser.new result }
{
    let place = parser.place_of_word(Word::Default, room)?;
    parser.expected(Mark::Colon, room)?;
    boxed_stmt(parser.alloc, Stmt::Default { place })
}

/// `"case" expr ":" | "default" ":"`
#[tactic(auto, unfolding(c_grammar::specs::inner::Reading::label), using(parse_expressions::proofs::CodeLoops::chooses, parse_expressions::proofs::CodeLoops::choice_fails))]
fn label(parser: &mut Parser<'_>, room: u32) -> Result<Box<Stmt>, Stop>
    ensures reads { Moves boxed_stmt_view (label room) parser.old parser.new result }
    ensures takes { Takes parser.old parser.new result }
{
    if parser.is_word_next(Word::Case)? {
        return case_label(parser, room);
    }
    default_label(parser, room)
}

// Statements with statements in them, which lie one level deeper.

/// `stmt`
#[cycle(statements)]
#[tactic(auto, using(parse_expressions::proofs::CodeLoops::chooses, parse_expressions::proofs::CodeLoops::choice_fails, crate::proofs::CodeStatements::stmt_is, crate::proofs::CodeStatements::no_stmt))]
fn stmt(parser: &mut Parser<'_>, room: u32) -> Result<Box<Stmt>, Stop>
    ensures reads { Moves boxed_stmt_view (stmt_at room) parser.old parser.new result }
    ensures takes { Takes parser.old parser.new result }
{
    if room == 0 {
        return Err(no_room_for_stmt(parser));
    }
    match stmt_start(parser)? {
        StmtStart::Block => block_stmt(parser, room),
        StmtStart::Empty => empty(parser, room),
        StmtStart::If => if_stmt(parser, room),
        StmtStart::While => while_stmt(parser, room),
        StmtStart::For => for_stmt(parser, room),
        StmtStart::Do => do_stmt(parser, room),
        StmtStart::Switch => switch_stmt(parser, room),
        StmtStart::Break => break_off(parser, room),
        StmtStart::Continue => go_on(parser, room),
        StmtStart::Return => return_back(parser, room),
        StmtStart::Simple => simple_stmt(parser, room),
    }
}

/// `decl | stmt`
#[cycle(statements)]
#[tactic(auto, using(parse_expressions::proofs::CodeLoops::chooses, parse_expressions::proofs::CodeLoops::choice_fails))]
fn item(parser: &mut Parser<'_>, room: u32) -> Result<Box<Stmt>, Stop>
    ensures reads { Moves boxed_stmt_view (item_at room) parser.old parser.new result }
    ensures takes { Takes parser.old parser.new result }
{
    if !parser.is_type_next()? {
        return stmt(parser, room);
    }
    let declaration = declaration(parser, room)?;
    declare_of(parser.alloc, declaration)
}

/// `{ decl | stmt }`
#[cycle(statements)]
#[tactic(auto, using(parse_expressions::proofs::CodeLoops::chooses, parse_expressions::proofs::CodeLoops::choice_fails), unfolding(c_grammar::specs::inner::Readers::turns))]
fn item_row(parser: &mut Parser<'_>, room: u32) -> Result<Vec<Stmt>, Stop>
    ensures reads { Moves (λ all. map stmt_view all.items) (item_row room) parser.old parser.new result }
    ensures keeps { Keeps parser.old parser.new result }
{
    let mut all = Vec::new(parser.alloc);
    'items: while is_item_next(parser)? {
        let item = item(parser, room)?;
        put_inner(&mut all, item)?;
    }
    Ok(all)
}

/// `body`
#[cycle(statements)]
#[tactic(auto, unfolding(c_grammar::specs::inner::Reading::items))]
pub fn block(parser: &mut Parser<'_>, room: u32) -> Result<Block, Stop>
    ensures reads { Moves block_view (items room (stmt_at room)) parser.old parser.new result }
    ensures takes { Takes parser.old parser.new result }
{
    let place = parser.place_of(Mark::OpenBrace, room)?;
    let items = item_row(parser, room)?;
    parser.expected(Mark::CloseBrace, room)?;
    Ok(Block { place, items })
}

/// A `body` that is a statement.
#[cycle(statements)]
fn block_stmt(parser: &mut Parser<'_>, room: u32) -> Result<Box<Stmt>, Stop>
    requires { 0 < room }
    ensures reads { Moves boxed_stmt_view (stmt_by room (room - 1) (stmt_at (room - 1)) ABlock) parser.old parser.new result }
    ensures takes { Takes parser.old parser.new result }
{
    let Block { place, items } = block(parser, room - 1)?;
    boxed_stmt(parser.alloc, Stmt::Block { place, items })
}

/// `label | stmt`
#[cycle(statements)]
#[tactic(auto, using(parse_expressions::proofs::CodeLoops::chooses, parse_expressions::proofs::CodeLoops::choice_fails))]
fn entry(parser: &mut Parser<'_>, room: u32) -> Result<Box<Stmt>, Stop>
    ensures reads { Moves boxed_stmt_view (entry_at room) parser.old parser.new result }
    ensures takes { Takes parser.old parser.new result }
{
    if is_label_next(parser)? {
        return label(parser, room);
    }
    stmt(parser, room)
}

/// `{ label | stmt }`
#[cycle(statements)]
#[tactic(auto, using(parse_expressions::proofs::CodeLoops::chooses, parse_expressions::proofs::CodeLoops::choice_fails), unfolding(c_grammar::specs::inner::Readers::turns))]
fn entry_row(parser: &mut Parser<'_>, room: u32) -> Result<Vec<Stmt>, Stop>
    ensures reads { Moves (λ all. map stmt_view all.items) (entry_row room) parser.old parser.new result }
    ensures keeps { Keeps parser.old parser.new result }
{
    let mut all = Vec::new(parser.alloc);
    'entries: while is_entry_next(parser)? {
        let entry = entry(parser, room)?;
        put_inner(&mut all, entry)?;
    }
    Ok(all)
}

/// `"{" { label | stmt } "}"`
#[cycle(statements)]
#[tactic(auto, unfolding(c_grammar::specs::inner::Reading::entries))]
fn entries(parser: &mut Parser<'_>, room: u32) -> Result<Vec<Stmt>, Stop>
    ensures reads { Moves (λ all. map stmt_view all.items) (entries room (stmt_at room)) parser.old parser.new result }
    ensures takes { Takes parser.old parser.new result }
{
    parser.expected(Mark::OpenBrace, room)?;
    let all = entry_row(parser, room)?;
    parser.expected(Mark::CloseBrace, room)?;
    Ok(all)
}

/// `[ "else" stmt ]`
#[cycle(statements)]
#[tactic(auto, using(parse_expressions::proofs::CodeLoops::chooses, parse_expressions::proofs::CodeLoops::choice_fails))]
fn otherwise(parser: &mut Parser<'_>, room: u32) -> Result<Option<Box<Stmt>>, Stop>
    requires { 0 < room }
    ensures reads { Moves (option_map boxed_stmt_view) (otherwise room (stmt_at (room - 1))) parser.old parser.new result }
    ensures keeps { Keeps parser.old parser.new result }
{
    if !parser.is_word_next(Word::Else)? {
        return Ok(None);
    }
    parser.expected_word(Word::Else, room)?;
    let otherwise = stmt(parser, room - 1)?;
    Ok(Some(otherwise))
}

/// `"if" "(" expr ")" stmt [ "else" stmt ]`
#[cycle(statements)]
fn if_stmt(parser: &mut Parser<'_>, room: u32) -> Result<Box<Stmt>, Stop>
    requires { 0 < room }
    ensures reads { Moves boxed_stmt_view (stmt_by room (room - 1) (stmt_at (room - 1)) AnIf) parser.old parser.new result }
    ensures takes { Takes parser.old parser.new result }
{
    let place = parser.place_of_word(Word::If, room)?;
    let condition = condition(parser, room - 1)?;
    let then = stmt(parser, room - 1)?;
    let otherwise = otherwise(parser, room)?;
    if_of(parser.alloc, place, condition, then, otherwise)
}

/// `"while" "(" expr ")" stmt`
#[cycle(statements)]
fn while_stmt(parser: &mut Parser<'_>, room: u32) -> Result<Box<Stmt>, Stop>
    requires { 0 < room }
    ensures reads { Moves boxed_stmt_view (stmt_by room (room - 1) (stmt_at (room - 1)) AWhile) parser.old parser.new result }
    ensures takes { Takes parser.old parser.new result }
{
    let place = parser.place_of_word(Word::While, room)?;
    let condition = condition(parser, room - 1)?;
    let body = stmt(parser, room - 1)?;
    while_of(parser.alloc, place, condition, body)
}

/// `"for" "(" ( decl | [ simple ] ";" ) [ expr ] ";" [ simple ] ")" stmt`
#[cycle(statements)]
fn for_stmt(parser: &mut Parser<'_>, room: u32) -> Result<Box<Stmt>, Stop>
    requires { 0 < room }
    ensures reads { Moves boxed_stmt_view (stmt_by room (room - 1) (stmt_at (room - 1)) AFor) parser.old parser.new result }
    ensures takes { Takes parser.old parser.new result }
{
    let place = parser.place_of_word(Word::For, room)?;
    let head = for_head(parser, room - 1)?;
    let body = stmt(parser, room - 1)?;
    for_of(parser.alloc, place, head, body)
}

/// `"do" stmt "while" "(" expr ")" ";"`
#[cycle(statements)]
fn do_stmt(parser: &mut Parser<'_>, room: u32) -> Result<Box<Stmt>, Stop>
    requires { 0 < room }
    ensures reads { Moves boxed_stmt_view (stmt_by room (room - 1) (stmt_at (room - 1)) ADo) parser.old parser.new result }
    ensures takes { Takes parser.old parser.new result }
{
    let place = parser.place_of_word(Word::Do, room)?;
    let body = stmt(parser, room - 1)?;
    parser.expected_word(Word::While, room)?;
    let condition = condition(parser, room - 1)?;
    parser.expected(Mark::Semicolon, room)?;
    do_of(parser.alloc, place, body, condition)
}

/// `"switch" "(" expr ")" "{" { label | stmt } "}"`
#[cycle(statements)]
fn switch_stmt(parser: &mut Parser<'_>, room: u32) -> Result<Box<Stmt>, Stop>
    requires { 0 < room }
    ensures reads { Moves boxed_stmt_view (stmt_by room (room - 1) (stmt_at (room - 1)) ASwitch) parser.old parser.new result }
    ensures takes { Takes parser.old parser.new result }
{
    let place = parser.place_of_word(Word::Switch, room)?;
    let condition = condition(parser, room - 1)?;
    let entries = entries(parser, room - 1)?;
    switch_of(parser.alloc, place, condition, entries)
}
