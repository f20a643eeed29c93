//! Trees of expressions, types and members.

ghost use Rattle.std.specs.Prelude.{◌≡◌, map};
ghost use Rattle.std.specs.Option.{option_map};
ghost use Rattle.c_tree.specs.Syntax as trees;
ghost use Rattle.c_tree.specs.SyntaxViews.{expr_view, boxed_expr_view, type_name_view, spec_view, declarator_view, enumerator_view, member_view};
ghost use Rattle.parse_tokens.specs.inner.Moves.{Makes};

use crate::boxes::boxed;
use c_tree::syntax::{
    BinaryOp, Declarator, Enumerator, Expr, Member, Name, Pointer, PrefixOp, Spec, TypeName,
};
use parse_tokens::parser::Stop;
use std::alloc::Global;

/// An expression in a box.
pub fn boxed_expr(alloc: Global, expr: Expr) -> Result<Box<Expr>, Stop>
    ensures { Makes boxed_expr_view (expr_view expr) result }
{
    boxed(alloc, expr)
}

/// `"(" expr ")"`
pub fn group(alloc: Global, inside: Box<Expr>) -> Result<Box<Expr>, Stop>
    ensures { Makes boxed_expr_view (trees.group (boxed_expr_view inside)) result }
{
    boxed_expr(alloc, Expr::Group(inside))
}

/// `specs ptr`
pub fn type_name_of(specs: Vec<Spec>, pointers: Vec<Pointer>) -> TypeName
    ensures { type_name_view result ≡ trees.type_name (trees.specs_of (map spec_view specs.items)) pointers.items }
{
    TypeName { specs, pointers }
}

/// `NAME [ "=" expr ] [ "," ]`
pub fn enumerator_of(name: Name, value: Option<Box<Expr>>, comma: bool) -> Enumerator
    ensures { enumerator_view result ≡ trees.enumerator_of name (option_map boxed_expr_view value) comma }
{
    Enumerator {
        name,
        value: value.map(Box::into_inner),
        comma,
    }
}

/// `specs ptr TNAME dims { "," ptr TNAME dims } ";"`
pub fn member_of(specs: Vec<Spec>, declarators: Vec<Declarator>) -> Member
    ensures { member_view result ≡ trees.members_of (trees.specs_of (map spec_view specs.items)) (trees.declarators_of (map declarator_view declarators.items)) }
{
    Member { specs, declarators }
}

/// A prefix operator and its operand.
pub fn prefixed(
    alloc: Global,
    place: u32,
    op: PrefixOp,
    operand: Box<Expr>,
) -> Result<Box<Expr>, Stop>
    ensures { Makes boxed_expr_view (trees.prefix place op (boxed_expr_view operand)) result }
{
    boxed_expr(alloc, Expr::Prefix { place, op, operand })
}

/// `sizeof` and its operand.
pub fn sizeof_expr(alloc: Global, place: u32, operand: Box<Expr>) -> Result<Box<Expr>, Stop>
    ensures { Makes boxed_expr_view (trees.sizeof_expr place (boxed_expr_view operand)) result }
{
    boxed_expr(alloc, Expr::SizeofExpr { place, operand })
}

/// A cast and its operand.
pub fn cast(alloc: Global, place: u32, to: TypeName, operand: Box<Expr>) -> Result<Box<Expr>, Stop>
    ensures { Makes boxed_expr_view (trees.cast place (type_name_view to) (boxed_expr_view operand)) result }
{
    boxed_expr(alloc, Expr::Cast { place, to, operand })
}

/// `postfix "[" expr "]"`
pub fn index(
    alloc: Global,
    place: u32,
    base: Box<Expr>,
    index: Box<Expr>,
) -> Result<Box<Expr>, Stop>
    ensures { Makes boxed_expr_view (trees.index place (boxed_expr_view base) (boxed_expr_view index)) result }
{
    boxed_expr(alloc, Expr::Index { place, base, index })
}

/// `postfix "." TNAME`
pub fn member(alloc: Global, place: u32, base: Box<Expr>, member: Name) -> Result<Box<Expr>, Stop>
    ensures { Makes boxed_expr_view (trees.member place (boxed_expr_view base) member) result }
{
    boxed_expr(
        alloc,
        Expr::Member {
            place,
            base,
            member,
        },
    )
}

/// `postfix "->" TNAME`
pub fn arrow(alloc: Global, place: u32, base: Box<Expr>, member: Name) -> Result<Box<Expr>, Stop>
    ensures { Makes boxed_expr_view (trees.arrow place (boxed_expr_view base) member) result }
{
    boxed_expr(
        alloc,
        Expr::Arrow {
            place,
            base,
            member,
        },
    )
}

/// A binary operator and its operands.
pub fn binary(
    alloc: Global,
    place: u32,
    op: BinaryOp,
    left: Box<Expr>,
    right: Box<Expr>,
) -> Result<Box<Expr>, Stop>
    ensures { Makes boxed_expr_view (trees.binary place op (boxed_expr_view left) (boxed_expr_view right)) result }
{
    boxed_expr(
        alloc,
        Expr::Binary {
            place,
            op,
            left,
            right,
        },
    )
}

/// `or "?" expr ":" expr`
pub fn conditional(
    alloc: Global,
    place: u32,
    condition: Box<Expr>,
    then: Box<Expr>,
    otherwise: Box<Expr>,
) -> Result<Box<Expr>, Stop>
    ensures { Makes boxed_expr_view (trees.conditional place (boxed_expr_view condition) (boxed_expr_view then) (boxed_expr_view otherwise)) result }
{
    boxed_expr(
        alloc,
        Expr::Conditional {
            place,
            condition,
            then,
            otherwise,
        },
    )
}
