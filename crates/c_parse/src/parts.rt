//! Parts that several productions have.

ghost use Rattle.std.specs.Prelude.{◌≡◌, false, IfOk};
ghost use Rattle.std.specs.Option.{option_map};
ghost use Rattle.c_tree.specs.SyntaxViews.{boxed_expr_view};
ghost use Rattle.parse_tokens.specs.inner.Moves.{Moves, Takes, Keeps};
ghost use Rattle.c_grammar.specs.inner.Readers.{full, maybe};
ghost use Rattle.c_grammar.specs.inner.Tokens.{tok, mark_is, begins_expr};
ghost use Rattle.c_grammar.specs.inner.Reading.{level_at};

use c_lex::Mark;
use c_tree::syntax::Expr;
use parse_expressions::expressions::full_expr;
use parse_tokens::parser::{Parser, Stop};

/// A mark behind what was read.
pub fn marked<T: Drop>(parser: &mut Parser<'_>, value: T, mark: Mark, room: u32) -> Result<T, Stop>
    ensures reads { Moves (λ _. tt) (tok room (mark_is mark)) parser.old parser.new result }
    ensures takes { Takes parser.old parser.new result }
    ensures same { IfOk result (λ v. v ≡ value) }
{
    parser.expected(mark, room)?;
    Ok(value)
}

/// `[ expr ]`
#[tactic(auto, using(parse_expressions::proofs::CodeLoops::chooses, parse_expressions::proofs::CodeLoops::choice_fails))]
pub fn maybe_expr(parser: &mut Parser<'_>, room: u32) -> Result<Option<Box<Expr>>, Stop>
    ensures reads { Moves (option_map boxed_expr_view) (maybe begins_expr (full (level_at false room).expr)) parser.old parser.new result }
    ensures keeps { Keeps parser.old parser.new result }
{
    if !parser.is_expr_next()? {
        return Ok(None);
    }
    let expr = full_expr(parser, room, false)?;
    Ok(Some(expr))
}
