//! What an operator does once the values of its operands are in registers.

ghost use Rattle.std.specs.Prelude.{◌≡◌, IfOk, OnOk, map};
ghost use Rattle.c_tree.specs.TypedViews.{layout_view, type_view, expr_node_view};
ghost use Rattle.struct_ir.specs.Nodes.{Nodes};
ghost use Rattle.struct_ir.specs.Views.{calc_view, followed};
ghost use Rattle.lower_forms.specs.Forms.{compares_to_zero, negation, sum_calc};
ghost use Rattle.lower_expressions.specs.inner.Operators.{unary_nodes, operation};

use crate::forms::{becomes, converts};
use crate::nodes::{after, sets, sets_constant, sets_truth};
use crate::types::{is_pointer, number_type};
use ak_words::{IntType, NoMemory, Num, Op, promote};
use c_meaning::types::element_size;
use c_tree::typed::{CType, Expr, ExprNode, Layout};
use std::alloc::Global;
use struct_ir::{Calc, Node};

/// An operator of one operand, whose value is in `t`; a form that is none does nothing.
pub fn unary_nodes(alloc: Global, out: &mut Vec<Node>, e: &Expr, t: u32) -> Result<(), NoMemory>
    ensures { OnOk result ((rest : Nodes) → followed out.new.items rest ≡ followed out.old.items (unary_nodes e.now.place (type_view e.now.ty) (expr_node_view e.now.node) t rest)) }
{
    match &e.node {
        ExprNode::Convert(from) => converts(out, e.place, &from.ty, &e.ty, t),
        ExprNode::Not(a) => negation(alloc, out, e.place, &a.ty, t),
        ExprNode::PtrTest(_) => sets(out, e.place, t, Calc::PtrTest(t)),
        _ => Ok(()),
    }
}

// Whether the number in `t`, of the type `ty`, is 0, or whether it isn't, as the comparison `op`
// says: it is promoted first, and the register behind `t` takes the 0.
fn compares_to_zero(
    out: &mut Vec<Node>,
    place: u32,
    op: Op,
    ty: IntType,
    t: u32,
) -> Result<(), NoMemory>
    ensures { OnOk result ((rest : Nodes) → followed out.new.items rest ≡ followed out.old.items (compares_to_zero place op ty t rest)) }
{
    let promoted = promote(ty);
    let zero = Num {
        ty: promoted,
        value: 0,
    };
    let u = after(t)?;
    becomes(out, place, ty, promoted, t)?;
    sets_constant(out, place, u, zero)?;
    sets(out, place, t, Calc::Apply(op, promoted, t, u))
}

// `!` of the value in `t`, which is of the type `ty`.
fn negation(
    alloc: Global,
    out: &mut Vec<Node>,
    place: u32,
    ty: &CType,
    t: u32,
) -> Result<(), NoMemory>
    ensures { OnOk result ((rest : Nodes) → followed out.new.items rest ≡ followed out.old.items (negation place (type_view ty.now) t rest)) }
{
    match ty {
        CType::Int(ty) => compares_to_zero(out, place, Op::Eq, *ty, t),
        _ => sets_truth(alloc, out, place, t, 0, 1),
    }
}

// The sum of a pointer and a number, of which the first stands in `t` and the other in `u`.
fn sum(pointer_first: bool, t: u32, u: u32, scale: u32) -> Calc
    ensures { calc_view result ≡ sum_calc pointer_first t u scale }
{
    if pointer_first {
        Calc::PtrAdd(t, u, scale)
    } else {
        Calc::PtrAdd(u, t, scale)
    }
}

/// What the operator `e` of two operands computes of the registers `t` and `u`, where the first
/// operand has the type `a`; of a form that is none, nothing.
pub fn operation(structs: &[Layout], a: &CType, e: &Expr, t: u32, u: u32) -> Result<Calc, NoMemory>
    ensures { IfOk result (λ c. calc_view c ≡ operation (map layout_view structs.now) (type_view e.now.ty) (type_view a.now) (expr_node_view e.now.node) t u) }
{
    let scale = element_size(a, structs)?;
    match &e.node {
        ExprNode::Binary(op, _, _) => Ok(Calc::Apply(*op, number_type(a), t, u)),
        ExprNode::PtrAdd(..) => Ok(sum(is_pointer(a), t, u, element_size(&e.ty, structs)?)),
        ExprNode::PtrSub(..) => Ok(Calc::PtrSub(t, u, scale)),
        ExprNode::PtrDiff(..) => Ok(Calc::PtrDiff(t, u, scale)),
        ExprNode::PtrCompare(op, _, _) => Ok(Calc::PtrCompare(*op, t, u)),
        _ => Ok(Calc::Unset),
    }
}
