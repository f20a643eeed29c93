//! Calls (C11 6.5.2.2).
ghost use Rattle.std.specs.Prelude.{◌≡◌, map};
ghost use Rattle.c_tree.specs.Typed.{integer, at, call, lib, exprs_of};
ghost use Rattle.c_tree.specs.TypedViews.{type_view, lib_view, expr_view, boxed_expr_view};
ghost use Rattle.c_typing.specs.Faults.{Gives, typed};
ghost use Rattle.c_typing.specs.Rules.{fitted, or_mismatch};
ghost use Rattle.c_typing.specs.Judgement.{fitted_all, called, called_lib};
ghost use Rattle.type_rules.specs.ListViews.{exprs_view};

use crate::conversions::fitted;
use crate::trees::made;
use c_lex::{CompileFault, Kind};
use c_tree::typed::{CType, Expr, ExprNode, Lib};
use std::alloc::Global;
use type_context::faults::refused;
use c_tree::copies::copy_type;

// An argument of a list, fitted to its parameter.
fn fitted_argument(alloc: Global, place: u32, t: &CType, e: Expr) -> Result<Expr, CompileFault>
    ensures { Gives expr_view result (or_mismatch place (fitted (type_view t.now) (expr_view e))) }
{
    let e = Box::new(alloc, e)?;
    let e = fitted(alloc, place, t, e)?;
    Ok(Box::into_inner(e))
}

/// As many arguments as parameters, each fitted to its own.
pub fn fitted_all(
    alloc: Global,
    place: u32,
    params: &[CType],
    args: Vec<Expr>,
) -> Result<Vec<Expr>, CompileFault>
    ensures { Gives exprs_view result (or_mismatch place (fitted_all (map type_view params.now) (exprs_view args))) }
{
    let mut rest = args.into_iter();
    let mut all = Vec::new(alloc);
    'params: for t in params {
        let Some(e) = rest.next() else {
            return refused(place, Kind::TypeMismatch);
        };
        let e = fitted_argument(alloc, place, t, e)?;
        all.push(e)?;
    }
    match rest.next() {
        Some(_) => refused(place, Kind::TypeMismatch),
        None => Ok(all),
    }
}

// A call of the function of a number.
fn call(
    alloc: Global,
    place: u32,
    ty: CType,
    number: u32,
    args: Vec<Expr>,
) -> Result<Box<Expr>, CompileFault>
    ensures { Gives boxed_expr_view result (typed (at place (type_view ty) (call number (exprs_of (exprs_view args))))) }
{
    made(alloc, place, ty, ExprNode::Call(number, args))
}

/// A call of a function of the library.
#[tactic(auto, using(crate::proofs::Rowed::lib_seen))]
pub fn library_call(
    alloc: Global,
    place: u32,
    ty: CType,
    which: Lib,
    args: Vec<Expr>,
) -> Result<Box<Expr>, CompileFault>
    ensures { Gives boxed_expr_view result (typed (at place (type_view ty) (lib (lib_view which) (exprs_of (exprs_view args))))) }
{
    made(alloc, place, ty, ExprNode::Lib(which, args))
}

/// A call of a function, at its name.
#[tactic(auto, using(type_context::proofs::Judging::fails_part))]
pub fn called(
    alloc: Global,
    place: u32,
    number: u32,
    params: &[CType],
    returned: &CType,
    args: Vec<Expr>,
) -> Result<Box<Expr>, CompileFault>
    ensures { Gives boxed_expr_view result (called place number (map type_view params.now) (type_view returned.now) (exprs_view args)) }
{
    let args = fitted_all(alloc, place, params, args)?;
    let ty = copy_type(alloc, returned)?;
    call(alloc, place, ty, number, args)
}

/// A call of a name of the library, at its name.
#[tactic(auto, using(type_context::proofs::Judging::fails_part))]
pub fn called_lib(
    alloc: Global,
    place: u32,
    which: Lib,
    params: &[CType],
    returned: CType,
    args: Vec<Expr>,
) -> Result<Box<Expr>, CompileFault>
    ensures { Gives boxed_expr_view result (called_lib place (lib_view which) (map type_view params.now) (type_view returned) (exprs_view args)) }
{
    let args = fitted_all(alloc, place, params, args)?;
    library_call(alloc, place, returned, which, args)
}
