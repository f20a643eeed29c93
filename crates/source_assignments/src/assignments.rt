//! Assignments, initialisers and expressions as statements.

ghost use Rattle.std.specs.Prelude.{◌≡◌, ℕ, IfOk, OnOk};
ghost use Rattle.c_tree.specs.Typed.{place_of, type_of, node_of};
ghost use Rattle.c_tree.specs.TypedViews.{type_view};
ghost use Rattle.c_meaning.specs.Control as control;
ghost use Rattle.c_meaning.specs.Turns as turns;
ghost use Rattle.c_meaning.specs.Values.{is_atomic};
ghost use Rattle.source_tree.specs.SharedViews.{expr_of};
ghost use Rattle.source_state.specs.Views.{todo_of, updating_of};
ghost use Rattle.source_assignments.specs.inner.Numbers.{plain_number};
ghost use Rattle.source_assignments.specs.Exits.{ExitsAs};
ghost use Rattle.source_assignments.specs.inner.Conversions.{voids};
ghost use Rattle.source_assignments.specs.Stores.{Stores, Copies, ReadsUpdated, ChangesUpdated, Updates};

use crate::behind_assignments;
use crate::exit::Exit;
use crate::locals::{is_atomic_local, is_block, make_local};
use ak_words::{NoMemory, Op, Rule};
use block_store::{Change, Ptr, Value};
use c_meaning::types::{
    access_of_type, align_in, is_atomic, is_minus, is_scalar, is_struct, size_in,
};
use c_tree::typed::CType;
use source_expressions::expressions::{arguments, expr, place, pointer_in};
use source_state::control::{Pending, Progress, Site, Then, Todo, Updating, Use, Values, Wait};
use source_state::{KeptStore, Locals, SharedAction, Variable};
use source_tree::tree::{OneForm, SharedExpr, SharedNode, SharedProgram};
use source_values::{addend, updated};
use std::alloc::Global;
use std::rc::Rc;

// The value of an expression is put into a local.
fn assign_local(
    e: &Rc<SharedExpr>,
    alloc: Global,
    program: &SharedProgram,
    locals: &mut Locals,
    store: &KeptStore,
    number: u32,
    k: &Rc<Todo>,
) -> Result<Exit, NoMemory>
    ensures exits { IfOk result (λ g. (function : ℕ) → ExitsAs (λ h w. turns.run h (expr_of e.now.value) (turns.local_way number w)) program.now function (todo_of k.now.value) locals.old.now store.now.now locals.new.now store.now.now g) }
    ensures locals { OnOk result (locals.new.kept ≡ locals.old.kept) }
{
    let after = behind_assignments::to_local(alloc, number, k)?;
    let flow = expr(e, alloc, program, locals, store.store(), &after)?;
    match flow {
        Progress::Ends(q) => Ok(Exit::Ends(q)),
        Progress::Gives(v) => {
            locals.set(number, Variable::Holds(v))?;
            Ok(Exit::End)
        }
    }
}

/// A value is stored at a place: that ends the turn.
pub fn store_value(site: Site, to: Value, v: Value, k: &Rc<Todo>) -> Result<Pending, NoMemory>
    ensures { IfOk result (λ q. Stores site.place site.atomic to v (todo_of k.now.value) q) }
{
    let then = Then::Begins(k.clone()?);
    let action = SharedAction::Store(pointer_in(to), v);
    Ok(Pending::Act(site, action, then))
}

/// The value of an expression is stored at a place.
pub fn assign_place(
    e: &Rc<SharedExpr>,
    alloc: Global,
    program: &SharedProgram,
    locals: &Locals,
    store: &KeptStore,
    site: Site,
    to: Value,
    k: &Rc<Todo>,
) -> Result<Exit, NoMemory>
    ensures { IfOk result (λ g. (function : ℕ) → ExitsAs (λ h w. turns.run h (expr_of e.now.value) (turns.place_way h site.place site.atomic to w)) program.now function (todo_of k.now.value) locals.now.now store.now.now locals.now.now store.now.now g) }
{
    let after = behind_assignments::to_place(alloc, site, to, k)?;
    let flow = expr(e, alloc, program, locals, store.store(), &after)?;
    match flow {
        Progress::Ends(q) => Ok(Exit::Ends(q)),
        Progress::Gives(v) => {
            let pending = store_value(site, to, v, k)?;
            Ok(Exit::Ends(pending))
        }
    }
}

/// A struct is copied to a place: that ends the turn.
pub fn copy_struct(
    program: &SharedProgram,
    place: u32,
    ty: &CType,
    to: Value,
    from: Value,
    k: &Rc<Todo>,
) -> Result<Pending, NoMemory>
    ensures { IfOk result (λ q. Copies program.now place (type_view ty.now) to from (todo_of k.now.value) q) }
{
    let size = size_in(ty, &program.structs)?;
    let align = align_in(ty, &program.structs);
    let then = Then::Begins(k.clone()?);
    let action = SharedAction::Copy(
        pointer_in(to),
        pointer_in(from),
        u128::from(size),
        align,
        true,
    );
    Ok(Pending::Act(Site::plain(place), action, then))
}

/// A struct is assigned whose left side's place is there.
pub fn assign_struct(
    right: &Rc<SharedExpr>,
    alloc: Global,
    program: &SharedProgram,
    locals: &Locals,
    store: &KeptStore,
    at: u32,
    ty: &Rc<CType>,
    to: Value,
    k: &Rc<Todo>,
) -> Result<Exit, NoMemory>
    ensures { IfOk result (λ g. (function : ℕ) → ExitsAs (λ h w. turns.run_place h (expr_of right.now.value) (turns.struct_right_way h at (type_view ty.now.value) to w)) program.now function (todo_of k.now.value) locals.now.now store.now.now locals.now.now store.now.now g) }
{
    let after = behind_assignments::struct_right(alloc, at, ty, to, k)?;
    let flow = place(right, alloc, program, locals, store.store(), &after)?;
    match flow {
        Progress::Ends(q) => Ok(Exit::Ends(q)),
        Progress::Gives(v) => {
            let pending = copy_struct(program, at, ty, to, v, k)?;
            Ok(Exit::Ends(pending))
        }
    }
}

// An assignment of a struct.
fn assign_whole(
    left: &SharedExpr,
    right: &Rc<SharedExpr>,
    alloc: Global,
    program: &SharedProgram,
    locals: &Locals,
    store: &KeptStore,
    k: &Rc<Todo>,
) -> Result<Exit, NoMemory>
    ensures { IfOk result (λ g. (function : ℕ) → ExitsAs (λ h w. turns.run_place h (expr_of left.now) (turns.struct_left_way h (place_of (expr_of left.now)) (type_of (expr_of left.now)) (expr_of right.now.value) w)) program.now function (todo_of k.now.value) locals.now.now store.now.now locals.now.now store.now.now g) }
{
    let after = behind_assignments::struct_left(alloc, left.place, &left.ty, right, k)?;
    let flow = place(left, alloc, program, locals, store.store(), &after)?;
    match flow {
        Progress::Ends(q) => Ok(Exit::Ends(q)),
        Progress::Gives(to) => {
            assign_struct(
                right, alloc, program, locals, store, left.place, &left.ty, to, k,
            )
        }
    }
}

// An assignment to an object that is no struct.
fn assign_scalar(
    left: &SharedExpr,
    right: &Rc<SharedExpr>,
    alloc: Global,
    program: &SharedProgram,
    locals: &Locals,
    store: &KeptStore,
    k: &Rc<Todo>,
) -> Result<Exit, NoMemory>
    ensures { IfOk result (λ g. (function : ℕ) → ExitsAs (λ h w. turns.run_place h (expr_of left.now) (turns.left_way h (place_of (expr_of left.now)) (is_atomic (type_of (expr_of left.now))) (expr_of right.now.value) w)) program.now function (todo_of k.now.value) locals.now.now store.now.now locals.now.now store.now.now g) }
{
    let site = Site {
        place: left.place,
        atomic: is_atomic(&left.ty),
    };
    let after = behind_assignments::left_place(alloc, site, right, k)?;
    let flow = place(left, alloc, program, locals, store.store(), &after)?;
    match flow {
        Progress::Ends(q) => Ok(Exit::Ends(q)),
        Progress::Gives(to) => assign_place(right, alloc, program, locals, store, site, to, k),
    }
}

// An assignment to an object.
fn assign_object(
    left: &SharedExpr,
    right: &Rc<SharedExpr>,
    alloc: Global,
    program: &SharedProgram,
    locals: &Locals,
    store: &KeptStore,
    k: &Rc<Todo>,
) -> Result<Exit, NoMemory>
    ensures { IfOk result (λ g. (function : ℕ) → ExitsAs (λ h w. turns.assigns_object h (expr_of left.now) (expr_of right.now.value) w) program.now function (todo_of k.now.value) locals.now.now store.now.now locals.now.now store.now.now g) }
{
    if is_struct(&left.ty) {
        assign_whole(left, right, alloc, program, locals, store, k)
    } else {
        assign_scalar(left, right, alloc, program, locals, store, k)
    }
}

// The local without a block that an expression is, if it is one.
#[tactic(auto, using(crate::proofs::Plain::no_plain_forms))]
fn plain_local(program: &SharedProgram, function: u32, e: &SharedExpr) -> Option<u32>
    ensures { result ≡ plain_number program.now function (node_of (expr_of e.now)) }
{
    match &e.node {
        SharedNode::Local(number) => {
            if is_block(program, function, *number) {
                None
            } else {
                Some(*number)
            }
        }
        SharedNode::Num(_) => None,
        SharedNode::Null => None,
        SharedNode::Literal(_) => None,
        SharedNode::Global(_) => None,
        SharedNode::Deref(_) => None,
        SharedNode::Member(_, _) => None,
        SharedNode::Address(_, _) => None,
        SharedNode::One(_, _) => None,
        SharedNode::Two(_, _, _) => None,
        SharedNode::Either(_, _, _) => None,
        SharedNode::Choose(_, _, _) => None,
        SharedNode::Call(_, _) => None,
    }
}

/// An assignment.
pub fn assign(
    left: &SharedExpr,
    right: &Rc<SharedExpr>,
    alloc: Global,
    program: &SharedProgram,
    function: u32,
    locals: &mut Locals,
    store: &KeptStore,
    k: &Rc<Todo>,
) -> Result<Exit, NoMemory>
    ensures exits { IfOk result (λ g. ExitsAs (λ h w. turns.assigns h (node_of (expr_of left.now)) (expr_of left.now) (expr_of right.now.value) w) program.now function (todo_of k.now.value) locals.old.now store.now.now locals.new.now store.now.now g) }
    ensures locals { OnOk result (locals.new.kept ≡ locals.old.kept) }
{
    match plain_local(program, function, left) {
        Some(number) => assign_local(right, alloc, program, locals, store, number, k),
        None => assign_object(left, right, alloc, program, locals, store, k),
    }
}

/// The value of b in `a op= b` is there, where a is in memory: a is changed where it is atomic, and else read, which ends
/// the turn.
#[tactic(auto, using(crate::proofs::Tails::changed_updated, crate::proofs::Tails::read_updated))]
pub fn update_right(
    u: &Rc<Updating>,
    alloc: Global,
    at: Value,
    by: Value,
    k: &Rc<Todo>,
) -> Result<Pending, NoMemory>
    ensures { IfOk result (λ q. Updates (updating_of u.now.value) at by (todo_of k.now.value) q) }
{
    if is_atomic(&u.ty) {
        change_object(u, at, by, k)
    } else {
        read_object(u, alloc, at, by, k)
    }
}

// a is read.
fn read_object(
    u: &Rc<Updating>,
    alloc: Global,
    at: Value,
    by: Value,
    k: &Rc<Todo>,
) -> Result<Pending, NoMemory>
    ensures { IfOk result (λ q. ReadsUpdated (updating_of u.now.value) at by (todo_of k.now.value) q) }
{
    let after = behind_assignments::update_read(alloc, u, at, by, k)?;
    let action = SharedAction::Load(pointer_in(at), access_of_type(&u.ty));
    Ok(Pending::Act(Site::plain(u.place), action, Then::Gives(u.place, after)))
}

// a is changed by b.
fn change_object(u: &Rc<Updating>, at: Value, by: Value, k: &Rc<Todo>) -> Result<Pending, NoMemory>
    ensures { IfOk result (λ q. ChangesUpdated (updating_of u.now.value) at by (todo_of k.now.value) q) }
{
    match by {
        Value::Num(n) => {
            let then = Then::Begins(k.clone()?);
            let added = addend(is_minus(u.op), n);
            let action = SharedAction::Change(pointer_in(at), Change::Add, added);
            let site = Site {
                place: u.place,
                atomic: true,
            };
            Ok(Pending::Act(site, action, then))
        }
        Value::Pointer(_) => Ok(Pending::Unfit),
    }
}

/// The place of a in `a op= b` is there.
pub fn update_left(
    right: &Rc<SharedExpr>,
    alloc: Global,
    program: &SharedProgram,
    locals: &Locals,
    store: &KeptStore,
    u: &Rc<Updating>,
    at: Value,
    k: &Rc<Todo>,
) -> Result<Exit, NoMemory>
    ensures { IfOk result (λ g. (function : ℕ) → ExitsAs (λ h w. turns.run h (expr_of right.now.value) (turns.update_right_way h (updating_of u.now.value) at w)) program.now function (todo_of k.now.value) locals.now.now store.now.now locals.now.now store.now.now g) }
{
    let after = behind_assignments::update_right(alloc, u, at, k)?;
    let flow = expr(right, alloc, program, locals, store.store(), &after)?;
    match flow {
        Progress::Ends(q) => Ok(Exit::Ends(q)),
        Progress::Gives(by) => {
            let pending = update_right(u, alloc, at, by, k)?;
            Ok(Exit::Ends(pending))
        }
    }
}

/// The value of b in `a op= b` is there, where a is a local without a block.
pub fn update_variable(
    program: &SharedProgram,
    locals: &mut Locals,
    store: &KeptStore,
    u: &Updating,
    number: u32,
    by: Value,
) -> Result<Exit, NoMemory>
    ensures exits { IfOk result (λ g. (function : ℕ) (k : control.Todo) → ExitsAs (λ h w x. turns.updates_variable h (updating_of u.now) number by w (turns.variable_at x number) x) program.now function k locals.old.now store.now.now locals.new.now store.now.now g) }
    ensures locals { OnOk result (locals.new.kept ≡ locals.old.kept) }
{
    match locals.get(number) {
        Variable::Holds(v) => match updated(&program.structs, store.store(), &u.ty, u.op, v, by)? {
            Ok(r) => {
                locals.set(number, Variable::Holds(r))?;
                Ok(Exit::End)
            }
            Err(rule) => Ok(Exit::Ends(Pending::Broke(rule, u.operator))),
        },
        Variable::Unset => Ok(Exit::Ends(Pending::Broke(Rule::C4, u.place))),
        Variable::Lies(_) => Ok(Exit::Ends(Pending::Broke(Rule::C4, u.place))),
    }
}

// `a op= b`, where a is a local without a block.
fn update_local(
    right: &Rc<SharedExpr>,
    alloc: Global,
    program: &SharedProgram,
    locals: &mut Locals,
    store: &KeptStore,
    u: &Rc<Updating>,
    number: u32,
    k: &Rc<Todo>,
) -> Result<Exit, NoMemory>
    ensures exits { IfOk result (λ g. (function : ℕ) → ExitsAs (λ h w. turns.run h (expr_of right.now.value) (turns.update_local_way h (updating_of u.now.value) number w)) program.now function (todo_of k.now.value) locals.old.now store.now.now locals.new.now store.now.now g) }
    ensures locals { OnOk result (locals.new.kept ≡ locals.old.kept) }
{
    let after = behind_assignments::update_local(alloc, u, number, k)?;
    let flow = expr(right, alloc, program, locals, store.store(), &after)?;
    match flow {
        Progress::Ends(q) => Ok(Exit::Ends(q)),
        Progress::Gives(by) => update_variable(program, locals, store, u, number, by),
    }
}

// `a op= b`, where a is in memory.
fn update_object(
    left: &SharedExpr,
    right: &Rc<SharedExpr>,
    alloc: Global,
    program: &SharedProgram,
    locals: &Locals,
    store: &KeptStore,
    u: &Rc<Updating>,
    k: &Rc<Todo>,
) -> Result<Exit, NoMemory>
    ensures { IfOk result (λ g. (function : ℕ) → ExitsAs (λ h w. turns.run_place h (expr_of left.now) (turns.update_left_way h (updating_of u.now.value) (expr_of right.now.value) w)) program.now function (todo_of k.now.value) locals.now.now store.now.now locals.now.now store.now.now g) }
{
    let after = behind_assignments::update_left(alloc, u, right, k)?;
    let flow = place(left, alloc, program, locals, store.store(), &after)?;
    match flow {
        Progress::Ends(q) => Ok(Exit::Ends(q)),
        Progress::Gives(at) => update_left(right, alloc, program, locals, store, u, at, k),
    }
}

/// A compound assignment at the place of its operator.
pub fn update(
    left: &SharedExpr,
    right: &Rc<SharedExpr>,
    alloc: Global,
    program: &SharedProgram,
    function: u32,
    locals: &mut Locals,
    store: &KeptStore,
    operator: u32,
    op: Op,
    k: &Rc<Todo>,
) -> Result<Exit, NoMemory>
    ensures exits { IfOk result (λ g. ExitsAs (λ h w. turns.updates h (turns.update_of operator (expr_of left.now) op) (node_of (expr_of left.now)) (expr_of left.now) (expr_of right.now.value) w) program.now function (todo_of k.now.value) locals.old.now store.now.now locals.new.now store.now.now g) }
    ensures locals { OnOk result (locals.new.kept ≡ locals.old.kept) }
{
    let u = updating(alloc, left, operator, op)?;
    match plain_local(program, function, left) {
        Some(number) => update_local(right, alloc, program, locals, store, &u, number, k),
        None => update_object(left, right, alloc, program, locals, store, &u, k),
    }
}

// What a compound assignment does.
fn updating(
    alloc: Global,
    left: &SharedExpr,
    operator: u32,
    op: Op,
) -> Result<Rc<Updating>, NoMemory>
    ensures { IfOk result (λ u. updating_of u.value ≡ turns.update_of operator (expr_of left.now) op) }
{
    Ok(Rc::new(
        alloc,
        Updating {
            place: left.place,
            operator,
            op,
            ty: left.ty.clone()?,
        },
    )?)
}

/// A local is declared with an initialiser.
pub fn initialise(
    e: &Rc<SharedExpr>,
    alloc: Global,
    program: &SharedProgram,
    function: u32,
    locals: &mut Locals,
    store: &mut KeptStore,
    place: u32,
    number: u32,
    k: &Rc<Todo>,
) -> Result<Exit, NoMemory>
    ensures exits { IfOk result (λ g. ExitsAs (λ h w. turns.initialises h place number (expr_of e.now.value) w) program.now function (todo_of k.now.value) locals.old.now store.old.now locals.new.now store.new.now g) }
    ensures locals { OnOk result (locals.new.kept ≡ locals.old.kept) }
    ensures store { OnOk result (store.new.kept ≡ store.old.kept) }
{
    if is_block(program, function, number) {
        let block = make_local(program, function, locals, store, number)?;
        let to = Value::Pointer(Ptr::To { block, offset: 0 });
        let site = Site {
            place,
            atomic: is_atomic_local(program, function, number),
        };
        assign_place(e, alloc, program, locals, store, site, to, k)
    } else {
        locals.set(number, Variable::Unset)?;
        assign_local(e, alloc, program, locals, store, number, k)
    }
}

// Whether a conversion is one to void.
fn voids(form: OneForm, ty: &CType) -> bool
    ensures { result ≡ voids form (type_view ty.now) }
{
    match (form, ty) {
        (OneForm::Convert, CType::Void) => true,
        (_, _) => false,
    }
}

// An expression that is evaluated, and whose value is dropped.
fn drop_plain(
    e: &SharedExpr,
    alloc: Global,
    program: &SharedProgram,
    locals: &Locals,
    store: &KeptStore,
    k: &Rc<Todo>,
) -> Result<Exit, NoMemory>
    ensures { IfOk result (λ g. (function : ℕ) → ExitsAs (λ h w. turns.run h (expr_of e.now) (turns.nowhere_way w)) program.now function (todo_of k.now.value) locals.now.now store.now.now locals.now.now store.now.now g) }
{
    let after = Rc::new(alloc, Use::ToNowhere(k.clone()?))?;
    match expr(e, alloc, program, locals, store.store(), &after)? {
        Progress::Ends(q) => Ok(Exit::Ends(q)),
        Progress::Gives(_) => Ok(Exit::End),
    }
}

// An object that is read, or only found.
fn drop_object(
    e: &SharedExpr,
    alloc: Global,
    program: &SharedProgram,
    locals: &Locals,
    store: &KeptStore,
    k: &Rc<Todo>,
) -> Result<Exit, NoMemory>
    ensures { IfOk result (λ g. (function : ℕ) → ExitsAs (λ h w. turns.drops_object h (place_of (expr_of e.now)) (type_of (expr_of e.now)) (node_of (expr_of e.now)) w) program.now function (todo_of k.now.value) locals.now.now store.now.now locals.now.now store.now.now g) }
{
    if is_scalar(&e.ty) {
        return drop_plain(e, alloc, program, locals, store, k);
    }
    let after = Rc::new(alloc, Use::ToNowhere(k.clone()?))?;
    match place(e, alloc, program, locals, store.store(), &after)? {
        Progress::Ends(q) => Ok(Exit::Ends(q)),
        Progress::Gives(_) => Ok(Exit::End),
    }
}

/// An expression whose value is dropped.
#[tactic(auto, using(crate::proofs::Dropped::dropped_forms))]
pub fn drop_value(
    e: &SharedExpr,
    alloc: Global,
    program: &SharedProgram,
    locals: &Locals,
    store: &KeptStore,
    k: &Rc<Todo>,
) -> Result<Exit, NoMemory>
    ensures { IfOk result (λ g. (function : ℕ) → ExitsAs (λ h w. turns.run_dropped h (expr_of e.now) w) program.now function (todo_of k.now.value) locals.now.now store.now.now locals.now.now store.now.now g) }
{
    match &e.node {
        SharedNode::Call(callee, all) => {
            let none = Rc::new(alloc, Values::None)?;
            let wait = Wait::Dropped(k.clone()?);
            let found = store.store();
            let q = arguments(
                all, alloc, program, locals, found, e.place, callee, &none, &wait,
            )?;
            Ok(Exit::Ends(q))
        }
        SharedNode::One(form, a) => {
            if voids(*form, &e.ty) {
                drop_value(a, alloc, program, locals, store, k)
            } else {
                drop_plain(e, alloc, program, locals, store, k)
            }
        }
        SharedNode::Literal(_) => drop_object(e, alloc, program, locals, store, k),
        SharedNode::Global(_) => drop_object(e, alloc, program, locals, store, k),
        SharedNode::Local(_) => drop_object(e, alloc, program, locals, store, k),
        SharedNode::Deref(_) => drop_object(e, alloc, program, locals, store, k),
        SharedNode::Member(_, _) => drop_object(e, alloc, program, locals, store, k),
        SharedNode::Num(_) => drop_plain(e, alloc, program, locals, store, k),
        SharedNode::Null => drop_plain(e, alloc, program, locals, store, k),
        SharedNode::Address(_, _) => drop_plain(e, alloc, program, locals, store, k),
        SharedNode::Two(_, _, _) => drop_plain(e, alloc, program, locals, store, k),
        SharedNode::Either(_, _, _) => drop_plain(e, alloc, program, locals, store, k),
        SharedNode::Choose(_, _, _) => drop_plain(e, alloc, program, locals, store, k),
    }
}
