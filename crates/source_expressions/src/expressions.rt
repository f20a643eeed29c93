//! How far an expression gets in a turn.

ghost use Rattle.std.specs.Prelude.{◌≡◌, IfOk, IfSome, map};
ghost use Rattle.block_store.specs.Blocks.{Blocks};
ghost use Rattle.c_tree.specs.TypedViews.{type_view, layout_view};
ghost use Rattle.c_meaning.specs.Control as control;
ghost use Rattle.c_meaning.specs.Turns.{pointer_in};
ghost use Rattle.c_meaning.specs.Values as values;
ghost use Rattle.c_meaning.specs.Values.{truth_of, int_result, is_atomic};
ghost use Rattle.source_tree.specs.declared.tree.SharedProgram.{SharedProgram};
ghost use Rattle.source_tree.specs.SharedViews.{expr_of, args_of};
ghost use Rattle.source_state.specs.Operations.{unary_of, binary_of};
ghost use Rattle.source_state.specs.declared.control.Progress.TheVariants as flows;
ghost use Rattle.source_state.specs.Variables.{variable_of};
ghost use Rattle.source_state.specs.Views.{use_of, wait_of, values_of, callee_of};
ghost use Rattle.source_expressions.specs.Progress.{Flows, FlowsPlace, FlowsSecond, FlowsTest, FlowsCall, Reads, done_with};
ghost use Rattle.source_expressions.specs.inner.Operations.{FlowsLeft, FlowsOnly, FlowsTested, FlowsWanted, binary_for, unary_for};
ghost use Rattle.source_expressions.specs.inner.Objects.{FlowsRead, FlowsVariable, FindsVariable, block_pointer};

use crate::called;
use crate::operations::{of_one, of_two};
use ak_words::{NoMemory, Num, Rule};
use block_store::{Access, Ptr, Store, Value};
use c_meaning::types::{access_of_type, element_size, is_atomic, member_offset};
use c_tree::typed::{CType, Layout};
use source_state::control::{Pending, Progress, Site, Then, Use, Values, Wait};
use source_state::frames::{
    after_argument, after_choice, after_first, after_first_test, after_only, after_place,
    after_second, after_second_test, one_more,
};
use source_state::operations::{Binary, Unary};
use source_state::{Locals, SharedAction, Variable};
use source_tree::tree::{
    Callee, OneForm, SharedArgs, SharedExpr, SharedNode, SharedProgram, TwoForm,
};
use source_values::{int_of, truth_of};
use std::alloc::Global;
use std::rc::Rc;

/// A value, or what ends the turn at a broken rule.
pub fn done(answer: Result<Value, Rule>, place: u32) -> Progress
    ensures { result ≡ done_with place answer }
{
    match answer {
        Ok(v) => Progress::Gives(v),
        Err(rule) => Progress::Ends(Pending::Broke(rule, place)),
    }
}

/// The pointer that a value is.
pub fn pointer_in(v: Value) -> Ptr
    ensures { result ≡ pointer_in v }
{
    match v {
        Value::Pointer(p) => p,
        Value::Num(_) => Ptr::Null,
    }
}

// The operation of a form that gives a type.
fn binary(form: TwoForm, ty: &CType, left: &CType, structs: &[Layout]) -> Result<Binary, NoMemory>
    ensures { IfOk result (λ op. binary_of op ≡ binary_for (map layout_view structs.now) form (type_view ty.now) (type_view left.now)) }
{
    match form {
        TwoForm::Numbers(op) => Ok(Binary::Numbers(op)),
        TwoForm::Forward => Ok(Binary::Forward(element_size(ty, structs)?)),
        TwoForm::Backward => Ok(Binary::Backward(element_size(left, structs)?)),
        TwoForm::Distance => Ok(Binary::Distance(element_size(left, structs)?)),
        TwoForm::Pointers(op) => Ok(Binary::Pointers(op)),
    }
}

// The operation of a form.
fn unary(alloc: Global, form: OneForm, ty: &Rc<CType>) -> Result<Rc<Unary>, NoMemory>
    ensures { IfOk result (λ op. unary_of op.value ≡ unary_for form (type_view ty.now.value)) }
{
    match form {
        OneForm::Convert => Ok(Rc::new(alloc, Unary::Converts(ty.clone()?))?),
        OneForm::Not => Ok(Rc::new(alloc, Unary::Negates)?),
        OneForm::Test => Ok(Rc::new(alloc, Unary::Tests)?),
    }
}

// The operation that finds a member.
fn selecting(alloc: Global, offset: u32) -> Result<Rc<Unary>, NoMemory>
    ensures { IfOk result (λ op. unary_of op.value ≡ values.selects offset) }
{
    Ok(Rc::new(alloc, Unary::Selects(offset))?)
}

// The pointer to the block of a name.
fn block_at(block: u64) -> Value
    ensures { result ≡ block_pointer block }
{
    Value::Pointer(Ptr::To { block, offset: 0 })
}

/// A place is read: that ends the turn.
pub fn read(site: Site, how: Access, at: Value, k: &Rc<Use>) -> Result<Progress, NoMemory>
    ensures { IfOk result (λ g. Reads site.place how site.atomic at (use_of k.now.value) g) }
{
    let then = Then::Gives(site.place, k.clone()?);
    let action = SharedAction::Load(pointer_in(at), how);
    Ok(Progress::Ends(Pending::Act(site, action, then)))
}

// Where an object of this type is named.
fn site_of(place: u32, ty: &CType) -> Site
    ensures { result ≡ record { place = place; atomic = is_atomic (type_view ty.now) } }
{
    Site {
        place,
        atomic: is_atomic(ty),
    }
}

// The value of a local.
fn local(place: u32, ty: &CType, variable: Variable, k: &Rc<Use>) -> Result<Progress, NoMemory>
    ensures { IfOk result (λ g. FlowsVariable place (type_view ty.now) (variable_of variable) (use_of k.now.value) g) }
{
    match variable {
        Variable::Unset => Ok(Progress::Ends(Pending::Broke(Rule::C4, place))),
        Variable::Holds(v) => Ok(Progress::Gives(v)),
        Variable::Lies(block) => read(site_of(place, ty), access_of_type(ty), block_at(block), k),
    }
}

// The block of a local.
fn block_of(place: u32, variable: Variable) -> Progress
    ensures { FindsVariable place (variable_of variable) result }
{
    match variable {
        Variable::Lies(block) => Progress::Gives(block_at(block)),
        _ => Progress::Ends(Pending::Broke(Rule::C4, place)),
    }
}

/// The second operand of `&&` or `||`, or of its only test.
pub fn second_test(store: &Store, place: u32, v: Value) -> Progress
    ensures { result ≡ done_with place (int_result (truth_of store.now v)) }
{
    match truth_of(store, v) {
        Ok(holds) => Progress::Gives(int_of(holds)),
        Err(rule) => Progress::Ends(Pending::Broke(rule, place)),
    }
}

// The value that a local holds, if it has no block.
fn held(variable: Variable) -> Option<Value>
    ensures { IfSome result (λ v. variable_of variable ≡ control.holds v) }
{
    match variable {
        Variable::Holds(v) => Some(v),
        _ => None,
    }
}

// The value of an expression that is there without any step: of a number, a null pointer or a local without a block.
// It needs no name of what follows.
#[tactic(auto, using(crate::proofs::Forms::run_forms))]
fn at_once(e: &SharedExpr, locals: &Locals) -> Option<Value>
    ensures { IfSome result (λ v. (p : SharedProgram) (blocks : Blocks) (k : control.Use) → Flows p locals.now.now blocks (expr_of e.now) k (flows.Gives v)) }
{
    match &e.node {
        SharedNode::Num(n) => Some(Value::Num(Num::wrapping(n.ty, n.value))),
        SharedNode::Null => Some(Value::Pointer(Ptr::Null)),
        SharedNode::Local(number) => held(locals.get(*number)),
        _ => None,
    }
}

/// An expression.
#[cycle(eval)]
#[tactic(auto, using(crate::proofs::Forms::run_forms))]
pub fn expr(
    e: &SharedExpr,
    alloc: Global,
    program: &SharedProgram,
    locals: &Locals,
    store: &Store,
    k: &Rc<Use>,
) -> Result<Progress, NoMemory>
    ensures { IfOk result (λ g. Flows program.now locals.now.now store.now (expr_of e.now) (use_of k.now.value) g) }
{
    match &e.node {
        SharedNode::Num(n) => Ok(Progress::Gives(Value::Num(Num::wrapping(n.ty, n.value)))),
        SharedNode::Null => Ok(Progress::Gives(Value::Pointer(Ptr::Null))),
        SharedNode::Local(number) => local(e.place, &e.ty, locals.get(*number), k),
        SharedNode::Address(_, a) => place(a, alloc, program, locals, store, k),
        SharedNode::One(form, a) => {
            let op = unary(alloc, *form, &e.ty)?;
            under(a, alloc, program, locals, store, e.place, &op, k)
        }
        SharedNode::Two(form, a, b) => {
            let op = binary(*form, &e.ty, &a.ty, &program.structs)?;
            let left = first(a, b, alloc, program, locals, store, e.place, op, k)?;
            with_left(left, b, alloc, program, locals, store, e.place, op, k)
        }
        SharedNode::Either(decides, a, b) => {
            let after = after_first_test(alloc, a.place, *decides, b, k)?;
            let left = expr(a, alloc, program, locals, store, &after)?;
            with_test(left, b, alloc, program, locals, store, a.place, *decides, k)
        }
        SharedNode::Choose(c, one, other) => {
            let after = after_choice(alloc, c.place, one, other, k)?;
            match expr(c, alloc, program, locals, store, &after)? {
                Progress::Ends(q) => Ok(Progress::Ends(q)),
                Progress::Gives(v) => match truth_of(store, v) {
                    Err(rule) => Ok(Progress::Ends(Pending::Broke(rule, c.place))),
                    Ok(true) => expr(one, alloc, program, locals, store, k),
                    Ok(false) => expr(other, alloc, program, locals, store, k),
                },
            }
        }
        SharedNode::Call(callee, all) => {
            call(all, alloc, program, locals, store, e.place, callee, k)
        }
        SharedNode::Literal(_) => object(e, alloc, program, locals, store, k),
        SharedNode::Global(_) => object(e, alloc, program, locals, store, k),
        SharedNode::Deref(_) => object(e, alloc, program, locals, store, k),
        SharedNode::Member(_, _) => object(e, alloc, program, locals, store, k),
    }
}

// The value of a left operand, if it is there, is used with the right one.
#[cycle(eval)]
fn with_left(
    left: Progress,
    b: &SharedExpr,
    alloc: Global,
    program: &SharedProgram,
    locals: &Locals,
    store: &Store,
    place: u32,
    op: Binary,
    k: &Rc<Use>,
) -> Result<Progress, NoMemory>
    ensures { IfOk result (λ g. FlowsLeft program.now locals.now.now store.now place (binary_of op) (expr_of b.now) left (use_of k.now.value) g) }
{
    match left {
        Progress::Ends(q) => Ok(Progress::Ends(q)),
        Progress::Gives(v) => second(b, alloc, program, locals, store, place, op, v, k),
    }
}

// The value of the left operand of `&&` or `||`, if it is there, is tested.
#[cycle(eval)]
fn with_test(
    left: Progress,
    b: &SharedExpr,
    alloc: Global,
    program: &SharedProgram,
    locals: &Locals,
    store: &Store,
    place: u32,
    decides: bool,
    k: &Rc<Use>,
) -> Result<Progress, NoMemory>
    ensures { IfOk result (λ g. FlowsTested program.now locals.now.now store.now place decides (expr_of b.now) left (use_of k.now.value) g) }
{
    match left {
        Progress::Ends(q) => Ok(Progress::Ends(q)),
        Progress::Gives(v) => match truth_of(store, v) {
            Err(rule) => Ok(Progress::Ends(Pending::Broke(rule, place))),
            Ok(holds) => either(b, alloc, program, locals, store, decides, holds, k),
        },
    }
}

// A call whose value is used.
#[cycle(eval)]
fn call(
    all: &SharedArgs,
    alloc: Global,
    program: &SharedProgram,
    locals: &Locals,
    store: &Store,
    place: u32,
    callee: &Rc<Callee>,
    k: &Rc<Use>,
) -> Result<Progress, NoMemory>
    ensures { IfOk result (λ g. FlowsWanted program.now locals.now.now store.now place (callee_of callee.now.value) (args_of all.now) (use_of k.now.value) g) }
{
    let none = Rc::new(alloc, Values::None)?;
    let wait = Wait::Wanted(place, k.clone()?);
    let q = arguments(
        all, alloc, program, locals, store, place, callee, &none, &wait,
    )?;
    Ok(Progress::Ends(q))
}

// An lvalue that is read.
#[cycle(eval)]
fn object(
    e: &SharedExpr,
    alloc: Global,
    program: &SharedProgram,
    locals: &Locals,
    store: &Store,
    k: &Rc<Use>,
) -> Result<Progress, NoMemory>
    ensures { IfOk result (λ g. FlowsRead program.now locals.now.now store.now (expr_of e.now) (use_of k.now.value) g) }
{
    let how = access_of_type(&e.ty);
    let site = site_of(e.place, &e.ty);
    let after = after_place(alloc, site, how, k)?;
    match place(e, alloc, program, locals, store, &after)? {
        Progress::Ends(q) => Ok(Progress::Ends(q)),
        Progress::Gives(at) => {
            let flow = read(site, how, at, k)?;
            Ok(flow)
        }
    }
}

/// The pointer to an lvalue.
#[cycle(eval)]
#[tactic(auto, using(crate::proofs::Forms::place_forms))]
pub fn place(
    e: &SharedExpr,
    alloc: Global,
    program: &SharedProgram,
    locals: &Locals,
    store: &Store,
    k: &Rc<Use>,
) -> Result<Progress, NoMemory>
    ensures { IfOk result (λ g. FlowsPlace program.now locals.now.now store.now (expr_of e.now) (use_of k.now.value) g) }
{
    match &e.node {
        SharedNode::Literal(number) => {
            let block = program.globals.len() as u64 + u64::from(*number);
            Ok(Progress::Gives(block_at(block)))
        }
        SharedNode::Global(number) => Ok(Progress::Gives(block_at(u64::from(*number)))),
        SharedNode::Local(number) => Ok(block_of(e.place, locals.get(*number))),
        SharedNode::Deref(a) => expr(a, alloc, program, locals, store, k),
        SharedNode::Member(a, number) => {
            let op = selecting(alloc, member_offset(&a.ty, &program.structs, *number))?;
            let after = after_only(alloc, e.place, &op, k)?;
            match place(a, alloc, program, locals, store, &after)? {
                Progress::Ends(q) => Ok(Progress::Ends(q)),
                Progress::Gives(v) => Ok(done(of_one(store, &op, v), e.place)),
            }
        }
        SharedNode::Num(_) => Ok(Progress::Ends(Pending::Unfit)),
        SharedNode::Null => Ok(Progress::Ends(Pending::Unfit)),
        SharedNode::Address(_, _) => Ok(Progress::Ends(Pending::Unfit)),
        SharedNode::One(_, _) => Ok(Progress::Ends(Pending::Unfit)),
        SharedNode::Two(_, _, _) => Ok(Progress::Ends(Pending::Unfit)),
        SharedNode::Either(_, _, _) => Ok(Progress::Ends(Pending::Unfit)),
        SharedNode::Choose(_, _, _) => Ok(Progress::Ends(Pending::Unfit)),
        SharedNode::Call(_, _) => Ok(Progress::Ends(Pending::Unfit)),
    }
}

// The operand of an operation on one value.
#[cycle(eval)]
fn under(
    a: &SharedExpr,
    alloc: Global,
    program: &SharedProgram,
    locals: &Locals,
    store: &Store,
    place: u32,
    op: &Rc<Unary>,
    k: &Rc<Use>,
) -> Result<Progress, NoMemory>
    ensures { IfOk result (λ g. FlowsOnly program.now locals.now.now store.now place (unary_of op.now.value) (expr_of a.now) (use_of k.now.value) g) }
{
    let after = after_only(alloc, place, op, k)?;
    match expr(a, alloc, program, locals, store, &after)? {
        Progress::Ends(q) => Ok(Progress::Ends(q)),
        Progress::Gives(v) => Ok(done(of_one(store, op, v), place)),
    }
}

// The left operand of an operation.
#[cycle(eval)]
fn first(
    a: &SharedExpr,
    b: &Rc<SharedExpr>,
    alloc: Global,
    program: &SharedProgram,
    locals: &Locals,
    store: &Store,
    place: u32,
    op: Binary,
    k: &Rc<Use>,
) -> Result<Progress, NoMemory>
    ensures { IfOk result (λ g. Flows program.now locals.now.now store.now (expr_of a.now) (control.first_of place (binary_of op) (expr_of b.now.value) (use_of k.now.value)) g) }
{
    match at_once(a, locals) {
        Some(v) => Ok(Progress::Gives(v)),
        None => {
            let after = after_first(alloc, place, op, b, k)?;
            expr(a, alloc, program, locals, store, &after)
        }
    }
}

/// The right operand of an operation whose left one is there.
#[cycle(eval)]
pub fn second(
    b: &SharedExpr,
    alloc: Global,
    program: &SharedProgram,
    locals: &Locals,
    store: &Store,
    place: u32,
    op: Binary,
    left: Value,
    k: &Rc<Use>,
) -> Result<Progress, NoMemory>
    ensures { IfOk result (λ g. FlowsSecond program.now locals.now.now store.now place (binary_of op) left (expr_of b.now) (use_of k.now.value) g) }
{
    if let Some(v) = at_once(b, locals) {
        return Ok(done(of_two(store, op, left, v)?, place));
    }
    let after = after_second(alloc, place, op, left, k)?;
    match expr(b, alloc, program, locals, store, &after)? {
        Progress::Ends(q) => Ok(Progress::Ends(q)),
        Progress::Gives(v) => Ok(done(of_two(store, op, left, v)?, place)),
    }
}

/// What follows the first test of `&&` or `||`.
#[cycle(eval)]
pub fn either(
    b: &SharedExpr,
    alloc: Global,
    program: &SharedProgram,
    locals: &Locals,
    store: &Store,
    decides: bool,
    holds: bool,
    k: &Rc<Use>,
) -> Result<Progress, NoMemory>
    ensures { IfOk result (λ g. FlowsTest program.now locals.now.now store.now decides holds (expr_of b.now) (use_of k.now.value) g) }
{
    if holds == decides {
        return Ok(Progress::Gives(int_of(holds)));
    }
    let after = after_second_test(alloc, b.place, k)?;
    match expr(b, alloc, program, locals, store, &after)? {
        Progress::Ends(q) => Ok(Progress::Ends(q)),
        Progress::Gives(v) => Ok(second_test(store, b.place, v)),
    }
}

/// The arguments of a call, and the call.
#[cycle(eval)]
pub fn arguments(
    all: &SharedArgs,
    alloc: Global,
    program: &SharedProgram,
    locals: &Locals,
    store: &Store,
    place: u32,
    callee: &Rc<Callee>,
    before: &Rc<Values>,
    wait: &Wait,
) -> Result<Pending, NoMemory>
    ensures { IfOk result (λ q. FlowsCall program.now locals.now.now store.now place (callee_of callee.now.value) (args_of all.now) (values_of before.now.value) (wait_of wait.now) q) }
{
    match all {
        SharedArgs::NoMore => called(alloc, place, callee, before, wait),
        SharedArgs::More(a, rest) => {
            let after = after_argument(alloc, place, callee, before, rest, wait)?;
            match expr(a, alloc, program, locals, store, &after)? {
                Progress::Ends(q) => Ok(q),
                Progress::Gives(v) => {
                    let before = one_more(alloc, v, before)?;
                    let q = arguments(
                        rest, alloc, program, locals, store, place, callee, &before, wait,
                    )?;
                    Ok(q)
                }
            }
        }
    }
}
