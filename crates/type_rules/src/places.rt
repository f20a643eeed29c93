//! What the rules ask of the source of a node: its place, and the name or the literal that it is.
ghost use Rattle.std.specs.Prelude.{◌≡◌, map};
ghost use Rattle.c_tree.specs.Syntax as trees;
ghost use Rattle.c_tree.specs.SyntaxViews as sources;
ghost use Rattle.c_typing.specs.Literals.{place_of_parts};
ghost use Rattle.c_typing.specs.Judgement.{name_in, text_in, node_place, place_of_specs};
ghost use Rattle.type_rules.specs.SpecifierViews.{parts_seen};

use c_tree::syntax::{Expr, Name, Span, Spec};

/// The name that an expression is, in brackets or not.
pub fn name_in(e: &Expr) -> Option<Name>
    ensures { result ≡ name_in (sources.expr_view e.now) }
{
    match e {
        Expr::Name(name) => Some(*name),
        Expr::Group(e) => name_in(e),
        _ => None,
    }
}

/// The string literal that an expression is, in brackets or not.
pub fn text_in(e: &Expr) -> Option<&[Span]>
    ensures { parts_seen result ≡ text_in (sources.expr_view e.now) }
{
    match e {
        Expr::Text(parts) => Some(parts),
        Expr::Group(e) => text_in(e),
        _ => None,
    }
}

/// The place of a literal: that of its first part.
pub fn place_of_parts(parts: &[Span]) -> u32
    ensures { result ≡ place_of_parts parts.now }
{
    match parts {
        [] => 0,
        [first, ..] => first.from,
    }
}

/// The place of a node: that of its operator, name or first token, in brackets or not.
pub fn node_place(e: &Expr) -> u32
    ensures { result ≡ node_place (sources.expr_view e.now) }
{
    match e {
        Expr::Name(name) | Expr::Call { callee: name, .. } => name.from,
        Expr::Text(parts) => place_of_parts(parts),
        Expr::Group(e) => node_place(e),
        Expr::Int { place, .. }
        | Expr::Char { place, .. }
        | Expr::Null { place }
        | Expr::Prefix { place, .. }
        | Expr::SizeofType { place, .. }
        | Expr::SizeofExpr { place, .. }
        | Expr::Cast { place, .. }
        | Expr::Index { place, .. }
        | Expr::Member { place, .. }
        | Expr::Arrow { place, .. }
        | Expr::Binary { place, .. }
        | Expr::Conditional { place, .. } => *place,
    }
}

/// The place of the first specifier.
pub fn place_of_specs(specs: &[Spec]) -> u32
    ensures { result ≡ place_of_specs (trees.specs_of (map sources.spec_view specs.now)) }
{
    match specs {
        [] => 0,
        [first, ..] => match first {
            Spec::Word { place, .. }
            | Spec::Struct { place, .. }
            | Spec::StructBody { place, .. }
            | Spec::UnnamedStruct { place, .. }
            | Spec::Enum { place, .. }
            | Spec::EnumBody { place, .. }
            | Spec::UnnamedEnum { place, .. } => *place,
            Spec::Alias(name) => name.from,
        },
    }
}
