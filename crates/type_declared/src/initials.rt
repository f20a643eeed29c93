//! What a global starts with (C11 6.7.9).
ghost use Rattle.std.specs.Prelude.{◌≡◌, Option};
ghost use Rattle.std.specs.Option.{option_map};
ghost use Rattle.c_tree.specs.SyntaxViews as source;
ghost use Rattle.c_tree.specs.Typed.{node_of};
ghost use Rattle.c_tree.specs.TypedViews.{type_view, expr_view, init_view};
ghost use Rattle.c_typing.specs.Scope as scopes;
ghost use Rattle.c_typing.specs.Programs.{is_null_word, literal_of, number_at, string_at, pointer_at, init_at, started_with};
ghost use Rattle.type_context.specs.ContextViews.{context_view};
ghost use Rattle.type_context.specs.Telling.{Says};

use ak_words::{IntType, Num};
use c_lex::{Kind, Refusal};
use c_tree::syntax as tree;
use c_tree::typed::{CType, Expr, ExprNode, Init};
use type_context::context::Context;
use type_context::kinds::same_int;
use type_rules::constants::constant_value;
use type_rules::conversions::is_zero;

/// Whether an expression is `NULL`, in brackets or not.
pub fn is_null_word(e: &tree::Expr) -> bool
    ensures { result ≡ is_null_word (source.expr_view e.now) }
{
    match e {
        tree::Expr::Null { .. } => true,
        tree::Expr::Group(e) => is_null_word(e),
        _ => false,
    }
}

/// The literal that a value is the first element of.
pub fn literal_of(e: &Expr) -> Option<u32>
    ensures { result ≡ literal_of (node_of (expr_view e.now)) }
{
    match &e.node {
        ExprNode::Decay(array) => match &array.node {
            ExprNode::Literal(n) => Some(*n),
            _ => None,
        },
        _ => None,
    }
}

/// A number of a type.
pub fn number_at(t: IntType, n: Option<Num>) -> Option<Init>
    ensures { option_map init_view result ≡ number_at t n }
{
    n.map(|n| Init::Num(Num::wrapping(t, n.value)))
}

/// A string, for a `char *`.
pub fn string_at(t: &CType, n: Option<u32>) -> Option<Init>
    ensures { option_map init_view result ≡ string_at (type_view t.now) n }
{
    match (t, n) {
        (CType::Int(t), Some(n)) if same_int(*t, IntType::char()) => Some(Init::Literal(n)),
        _ => None,
    }
}

/// What a global starts with, at its name.
pub fn started_with(place: u32, init: Option<Init>) -> Result<Init, Refusal>
    ensures { Says init_view result (started_with place (option_map init_view init)) }
{
    match init {
        Some(init) => Ok(init),
        None => Err(Refusal {
            place,
            kind: Kind::TypeMismatch,
        }),
    }
}

// What a pointer starts with.
fn pointer_at(t: &CType, e: &tree::Expr, x: &Expr) -> Option<Init>
    ensures { (c : scopes.Context) → option_map init_view result ≡ pointer_at c (type_view t.now) (source.expr_view e.now) (expr_view x.now) }
{
    if is_null_word(e) || is_zero(x) {
        Some(Init::Zero)
    } else {
        string_at(t, literal_of(x))
    }
}

/// What a global of a type starts with.
pub fn init_at(context: &Context<'_>, t: &CType, e: &tree::Expr, x: &Expr) -> Option<Init>
    ensures { option_map init_view result ≡ init_at (context_view context.now) (type_view t.now) (source.expr_view e.now) (expr_view x.now) }
{
    match t {
        CType::Int(t) | CType::Atomic(t) => number_at(*t, constant_value(context, e, x)),
        CType::Pointer(target) => pointer_at(target, e, x),
        _ => None,
    }
}
