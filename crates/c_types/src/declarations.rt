//! Declarations of locals, judged where they stand (C11 6.7).
ghost use Rattle.std.specs.Prelude.{map, Some};
ghost use Rattle.std.specs.Option.{option_map};
ghost use Rattle.c_tree.specs.SyntaxViews as source;
ghost use Rattle.c_tree.specs.Typed.{Ty};
ghost use Rattle.c_tree.specs.TypedViews.{type_view, boxed_expr_view, stmt_view};
ghost use Rattle.c_typing.specs.Faults.{Judged, Gives};
ghost use Rattle.c_typing.specs.Statements.{initialised, judged_init, object_of, judged_local, judged_locals, judged_declaration};
ghost use Rattle.type_context.specs.ContextViews.{context_view};
ghost use Rattle.type_context.specs.Telling.{Tells};
ghost use Rattle.type_declared.specs.Gathering.{each};
ghost use Rattle.c_types.specs.inner.Gathering.{some_part};

use crate::declarators::{declarator, specifiers};
use crate::expressions::value;
use c_lex::CompileFault;
use c_tree::syntax as tree;
use c_tree::typed::{CType, Expr, Stmt, StmtNode};
use std::alloc::Global;
use type_context::context::Context;
use type_context::faults::{as_fault, both};
use type_context::outcomes::{again, pushed};
use type_declared::objects::{declare_local, fine_local, local_number, or_int};
use type_locals::headers::unboxed;
use type_rules::assignments::initialised;
use type_rules::declarators::object_declared;

/// The type of an object that a declarator declares, behind specifiers.
pub fn object_of(
    context: &mut Context<'_>,
    base: &Result<CType, CompileFault>,
    d: &tree::Declarator,
) -> Result<CType, CompileFault>
    ensures { (j : Judged Ty) → Gives type_view base.now j → Tells type_view result context.new (object_of j (source.declarator_view d.now) (context_view context.old)) }
{
    let base = again(context.alloc, base);
    let declarator = declarator(context, d);
    let (base, declarator) = both(base, declarator)?;
    object_declared(context, base, &declarator)
}

// An initialiser that is there, at the declarator's name.
fn initialiser(
    context: &mut Context<'_>,
    place: u32,
    t: &Result<CType, CompileFault>,
    e: &tree::Expr,
) -> Result<Option<Box<Expr>>, CompileFault>
    ensures { (j : Judged Ty) → Gives type_view t.now j → Tells (option_map boxed_expr_view) result context.new (judged_init place j (Some (source.expr_view e.now)) (context_view context.old)) }
{
    let t = again(context.alloc, t);
    let value = value(context, e);
    let (t, value) = both(t, value)?;
    initial(context.alloc, place, &t, value)
}

// The value of an initialiser.
#[tactic(auto, using(type_context::proofs::Judging::fails_part))]
fn initial(
    alloc: Global,
    place: u32,
    t: &CType,
    value: Box<Expr>,
) -> Result<Option<Box<Expr>>, CompileFault>
    ensures { Gives (option_map boxed_expr_view) result (some_part (initialised place (type_view t.now) (boxed_expr_view value))) }
{
    let value = initialised(alloc, place, t, value)?;
    Ok(Some(value))
}

// An initialiser, or none.
fn init(
    context: &mut Context<'_>,
    place: u32,
    t: &Result<CType, CompileFault>,
    e: &Option<tree::Expr>,
) -> Result<Option<Box<Expr>>, CompileFault>
    ensures { (j : Judged Ty) → Gives type_view t.now j → Tells (option_map boxed_expr_view) result context.new (judged_init place j (option_map source.expr_view e.now) (context_view context.old)) }
{
    match e {
        Some(e) => initialiser(context, place, t, e),
        None => Ok(None),
    }
}

// A local, which is in scope directly behind its declarator.
fn local(
    context: &mut Context<'_>,
    base: &Result<CType, CompileFault>,
    x: &tree::InitDeclarator,
) -> Result<Stmt, CompileFault>
    ensures { (j : Judged Ty) → Gives type_view base.now j → Tells stmt_view result context.new (judged_local j (source.init_declarator_view x.now) (context_view context.old)) }
{
    let name = x.declarator.name;
    let t = object_of(context, base, &x.declarator);
    let fine = as_fault(fine_local(context, name));
    let number = local_number(context)?;
    let declared = or_int(context.alloc, &t)?;
    declare_local(context, name, declared)?;
    let init = init(context, name.from, &t, &x.value);
    let (_, init) = both(both(fine, t), init)?;
    Ok(Stmt {
        place: name.from,
        node: StmtNode::Declare(number, unboxed(init)),
    })
}

// Locals that are declared together.
fn locals(
    context: &mut Context<'_>,
    base: &Result<CType, CompileFault>,
    xs: &[tree::InitDeclarator],
) -> Result<Vec<Stmt>, CompileFault>
    ensures { (j : Judged Ty) → Gives type_view base.now j → Tells (each stmt_view) result context.new (judged_locals j (map source.init_declarator_view xs.now) (context_view context.old)) }
{
    let mut all = Ok(Vec::new(context.alloc));
    'declarators: for x in xs {
        let next = local(context, base, x);
        all = pushed(all, next);
    }
    all
}

/// A declaration: a statement for each declarator.
pub(crate) fn declaration(
    context: &mut Context<'_>,
    d: &tree::Declaration,
) -> Result<Vec<Stmt>, CompileFault>
    ensures { Tells (each stmt_view) result context.new (judged_declaration (source.declaration_view d.now) (context_view context.old)) }
{
    let base = specifiers(context, &d.specs);
    let all = locals(context, &base, &d.declarators);
    let (_, all) = both(base, all)?;
    Ok(all)
}
