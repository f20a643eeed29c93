//! Expressions with shared parts.

ghost use Rattle.std.specs.Prelude.{◌≡◌, IfOk};
ghost use Rattle.c_tree.specs.Typed as tree;
ghost use Rattle.c_tree.specs.TypedViews.{type_view, expr_view, expr_node_view, optional_expr_view, lib_view};
ghost use Rattle.source_tree.specs.SharedViews.{expr_of, node_of, args_of, two_of_form, either_of, call_of, optional_expr_of};
ghost use Rattle.source_tree.specs.inner.CodeTrees.{exprs_view};

use crate::copies::copy_lib;
use crate::tree::{AddressForm, Callee, OneForm, SharedArgs, SharedExpr, SharedNode, TwoForm};
use ak_words::NoMemory;
use c_tree::copies::copy_type;
use c_tree::typed::{CType, Expr, ExprNode, Lib};
use std::alloc::Global;
use std::rc::Rc;

/// An expression.
#[cycle(share)]
pub fn share_expr(alloc: Global, e: &Expr) -> Result<Rc<SharedExpr>, NoMemory>
    ensures { IfOk result (λ shared. expr_of shared.value ≡ expr_view e.now) }
{
    let ty = shared_type(alloc, &e.ty)?;
    let node = share_node(alloc, &e.node)?;
    Ok(Rc::new(
        alloc,
        SharedExpr {
            place: e.place,
            ty,
            node,
        },
    )?)
}

// A type.
fn shared_type(alloc: Global, t: &CType) -> Result<Rc<CType>, NoMemory>
    ensures { IfOk result (λ shared. type_view shared.value ≡ type_view t.now) }
{
    let copy = copy_type(alloc, t)?;
    Ok(Rc::new(alloc, copy)?)
}

// What an expression does.
#[cycle(share)]
#[tactic(auto, using(crate::proofs::Views::call_view, crate::proofs::Views::lib_call_view))]
fn share_node(alloc: Global, node: &ExprNode) -> Result<SharedNode, NoMemory>
    ensures { IfOk result (λ shared. node_of shared ≡ expr_node_view node.now) }
{
    match node {
        ExprNode::Num(n) => Ok(SharedNode::Num(*n)),
        ExprNode::Null => Ok(SharedNode::Null),
        ExprNode::Literal(n) => Ok(SharedNode::Literal(*n)),
        ExprNode::Global(n) => Ok(SharedNode::Global(*n)),
        ExprNode::Local(n) => Ok(SharedNode::Local(*n)),
        ExprNode::Deref(e) => Ok(SharedNode::Deref(share_expr(alloc, e)?)),
        ExprNode::Member(e, n) => Ok(SharedNode::Member(share_expr(alloc, e)?, *n)),
        ExprNode::AddrOf(e) => Ok(SharedNode::Address(AddressForm::Of, share_expr(alloc, e)?)),
        ExprNode::Decay(e) => Ok(SharedNode::Address(AddressForm::Decay, share_expr(alloc, e)?)),
        ExprNode::Convert(e) => Ok(SharedNode::One(OneForm::Convert, share_expr(alloc, e)?)),
        ExprNode::Not(e) => Ok(SharedNode::One(OneForm::Not, share_expr(alloc, e)?)),
        ExprNode::PtrTest(e) => Ok(SharedNode::One(OneForm::Test, share_expr(alloc, e)?)),
        ExprNode::Binary(op, a, b) => share_two(alloc, TwoForm::Numbers(*op), a, b),
        ExprNode::PtrAdd(a, b) => share_two(alloc, TwoForm::Forward, a, b),
        ExprNode::PtrSub(a, b) => share_two(alloc, TwoForm::Backward, a, b),
        ExprNode::PtrDiff(a, b) => share_two(alloc, TwoForm::Distance, a, b),
        ExprNode::PtrCompare(op, a, b) => share_two(alloc, TwoForm::Pointers(*op), a, b),
        ExprNode::AndAlso(a, b) => share_either(alloc, false, a, b),
        ExprNode::OrElse(a, b) => share_either(alloc, true, a, b),
        ExprNode::Choose(c, a, b) => {
            let c = share_expr(alloc, c)?;
            let a = share_expr(alloc, a)?;
            let b = share_expr(alloc, b)?;
            Ok(SharedNode::Choose(c, a, b))
        }
        ExprNode::Call(f, all) => {
            let all = share_args(alloc, all)?;
            let callee = Rc::new(alloc, Callee::Function(*f))?;
            Ok(shared_call(callee, all))
        }
        ExprNode::Lib(lib, all) => {
            let all = share_args(alloc, all)?;
            let callee = shared_lib(alloc, lib)?;
            Ok(shared_call(callee, all))
        }
    }
}

// An operation on two values.
#[cycle(share)]
fn share_two(alloc: Global, form: TwoForm, a: &Expr, b: &Expr) -> Result<SharedNode, NoMemory>
    ensures { IfOk result (λ shared. node_of shared ≡ two_of_form form (expr_view a.now) (expr_view b.now)) }
{
    let a = share_expr(alloc, a)?;
    let b = share_expr(alloc, b)?;
    Ok(SharedNode::Two(form, a, b))
}

// `||`, which true decides, or `&&`, which false does.
#[cycle(share)]
fn share_either(alloc: Global, decides: bool, a: &Expr, b: &Expr) -> Result<SharedNode, NoMemory>
    ensures { IfOk result (λ shared. node_of shared ≡ either_of decides (expr_view a.now) (expr_view b.now)) }
{
    let a = share_expr(alloc, a)?;
    let b = share_expr(alloc, b)?;
    Ok(SharedNode::Either(decides, a, b))
}

// The arguments of a call.
#[cycle(share)]
#[tactic(auto, using(crate::proofs::Rows::drop_one))]
fn share_args(alloc: Global, all: &[Expr]) -> Result<Rc<SharedArgs>, NoMemory>
    ensures { IfOk result (λ shared. args_of shared.value ≡ exprs_view all.now) }
{
    let mut rest = Rc::new(alloc, SharedArgs::NoMore)?;
    let mut n = all.len();
    'back: while n > 0 {
        n -= 1;
        let first = share_expr(alloc, &all[n])?;
        rest = Rc::new(alloc, SharedArgs::More(first, rest))?;
    }
    Ok(rest)
}

// A call.
fn shared_call(callee: Rc<Callee>, all: Rc<SharedArgs>) -> SharedNode
    ensures { node_of result ≡ call_of callee.value (args_of all.value) }
{
    SharedNode::Call(callee, all)
}

// A function of the library, to be called.
fn shared_lib(alloc: Global, lib: &Lib) -> Result<Rc<Callee>, NoMemory>
    ensures { IfOk result (λ callee. (all : tree.Exprs) → call_of callee.value all ≡ tree.lib (lib_view lib.now) all) }
{
    let lib = copy_lib(alloc, lib)?;
    Ok(Rc::new(alloc, Callee::Library(lib))?)
}

/// An expression, if there is one.
pub fn share_optional(alloc: Global, e: &Option<Expr>) -> Result<Option<Rc<SharedExpr>>, NoMemory>
    ensures { IfOk result (λ shared. optional_expr_of shared ≡ optional_expr_view e.now) }
{
    match e {
        None => Ok(None),
        Some(e) => {
            let e = share_expr(alloc, e)?;
            Ok(Some(e))
        }
    }
}
