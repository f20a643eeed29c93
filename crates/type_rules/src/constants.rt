//! Integer constant expressions (C11 6.6 p6).
ghost use Rattle.std.specs.Prelude.{◌≡◌};
ghost use Rattle.c_tree.specs.SyntaxViews as sources;
ghost use Rattle.c_tree.specs.TypedViews.{type_view, expr_view};
ghost use Rattle.c_typing.specs.Constants.{is_constant_prefix, is_constant_binary, is_constant, at_type, both_values, is_zero_value, value, constant_value};
ghost use Rattle.type_context.specs.ContextViews.{context_view};

use ak_words::{Num, Op, apply};
use c_tree::syntax::{self, BinaryOp, PrefixOp};
use c_tree::typed::{CType, Expr, ExprNode};
use type_context::context::Context;

fn is_constant_prefix(op: PrefixOp) -> bool
    ensures { result ≡ is_constant_prefix op }
{
    match op {
        PrefixOp::Minus | PrefixOp::Plus | PrefixOp::Not | PrefixOp::Complement => true,
        PrefixOp::Deref | PrefixOp::AddressOf => false,
    }
}

fn is_constant_binary(op: BinaryOp) -> bool
    ensures { result ≡ is_constant_binary op }
{
    matches!(op, BinaryOp::Value(_))
}

// Whether it has the form of an integer constant expression.
fn is_constant(context: &Context<'_>, e: &syntax::Expr) -> bool
    ensures { result ≡ is_constant (context_view context.now) (sources.expr_view e.now) }
{
    match e {
        syntax::Expr::Name(name) => context.is_constant_name(*name),
        syntax::Expr::Int { .. } => true,
        syntax::Expr::Char { .. } => true,
        syntax::Expr::SizeofType { .. } => true,
        syntax::Expr::Group(e) => is_constant(context, e),
        syntax::Expr::Prefix { op, operand, .. } => {
            is_constant_prefix(*op) && is_constant(context, operand)
        }
        syntax::Expr::Binary {
            op,
            left,
            right,
            ..
        } => is_constant_binary(*op) && is_constant(context, left) && is_constant(context, right),
        _ => false,
    }
}

// A value at a type, if that is a type of numbers.
fn at_type(ty: &CType, value: Option<Num>) -> Option<Num>
    ensures { result ≡ at_type (type_view ty.now) value }
{
    match (ty, value) {
        (CType::Int(t), Some(n)) => Some(Num::wrapping(*t, n.value)),
        _ => None,
    }
}

// An operation on two values, if it breaks no rule.
fn both_values(op: Op, a: Option<Num>, b: Option<Num>) -> Option<Num>
    ensures { result ≡ both_values op a b }
{
    match (a, b) {
        (Some(a), Some(b)) => match apply(op, a, b) {
            Ok(n) => Some(n),
            Err(_) => None,
        },
        _ => None,
    }
}

// Whether a value is 0.
fn is_zero_value(value: Option<Num>) -> Option<Num>
    ensures { result ≡ is_zero_value value }
{
    match value {
        Some(n) => Some(Num::int(i32::from(n.value == 0))),
        None => None,
    }
}

// The value of a typed expression that is made of numbers, conversions and operations, if it
// breaks no rule.
#[tactic(auto, using(crate::proofs::Numbers::number_itself))]
fn value(e: &Expr) -> Option<Num>
    ensures { result ≡ value (expr_view e.now) }
{
    match &e.node {
        ExprNode::Num(n) => Some(*n),
        ExprNode::Convert(operand) => at_type(&e.ty, value(operand)),
        ExprNode::Not(operand) => is_zero_value(value(operand)),
        ExprNode::Binary(op, a, b) => both_values(*op, value(a), value(b)),
        _ => None,
    }
}

/// The value of an integer constant expression, which is typed too: none where the expression is
/// none, or breaks a rule.
pub fn constant_value(context: &Context<'_>, e: &syntax::Expr, typed: &Expr) -> Option<Num>
    ensures { result ≡ constant_value (context_view context.now) (sources.expr_view e.now) (expr_view typed.now) }
{
    if is_constant(context, e) {
        value(typed)
    } else {
        None
    }
}
