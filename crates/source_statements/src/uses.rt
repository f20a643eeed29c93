//! What the value of an expression is used for.

ghost use Rattle.std.specs.Prelude.{◌≡◌, ◌∷◌, ◌++◌, [], ℕ, List, IfOk, OnOk};
ghost use Rattle.c_tree.specs.TypedViews.{type_view};
ghost use Rattle.c_meaning.specs.Control as control;
ghost use Rattle.c_meaning.specs.Turns as turns;
ghost use Rattle.source_tree.specs.declared.tree.SharedProgram.{SharedProgram};
ghost use Rattle.source_tree.specs.SharedViews.{expr_of, args_of, labels_of, stmt_of, row_of};
ghost use Rattle.source_state.specs.Operations.{unary_of, binary_of};
ghost use Rattle.source_state.specs.Views.{todo_of, use_of, loop_of, stmt_or_nothing, updating_of, callee_of, values_of, wait_of};
ghost use Rattle.source_expressions.specs.Progress.{FlowsCall};
ghost use Rattle.source_statements.specs.inner.Behind.{Continues, FlowsOn, StoresUpdated};
ghost use Rattle.source_statements.specs.Finishing.{Finishes, GivesTo};
ghost use Rattle.source_assignments.specs.Exits.{ExitsAs};

use crate::resume::finish;
use crate::statements::{enter_body, enter_switch, stmt};
use ak_words::NoMemory;
use block_store::{Access, Value};
use c_tree::typed::CType;
use source_assignments::Exit;
use source_assignments::assignments::{
    assign_place, assign_struct, copy_struct, store_value, update_left, update_right,
    update_variable,
};
use source_expressions::expressions::{arguments, done, either, expr, read, second, second_test};
use source_expressions::operations::{of_one, of_two};
use source_state::control::{
    LoopParts, Pending, Progress, Site, Todo, Updating, Use, Values, Wait,
};
use source_state::frames::one_more;
use source_state::operations::{Binary, Unary};
use source_state::{KeptStore, Locals, Variable};
use source_tree::tree::{
    Callee, SharedArgs, SharedExpr, SharedLabels, SharedProgram, SharedRow, SharedStmt,
};
use source_values::{truth_of, updated};
use std::alloc::Global;
use std::rc::Rc;

// The left operand of an operation has its value.
fn first_given(
    v: Value,
    right: &Rc<SharedExpr>,
    alloc: Global,
    program: &SharedProgram,
    locals: &Locals,
    store: &KeptStore,
    place: u32,
    op: Binary,
    k: &Rc<Use>,
) -> Result<Progress, NoMemory>
    ensures { IfOk result (λ g. Continues (λ h. turns.first_way place (binary_of op) (expr_of right.now.value) (turns.run h (expr_of right.now.value))) program.now locals.now.now store.now.now v (use_of k.now.value) g) }
{
    second(
        right,
        alloc,
        program,
        locals,
        store.store(),
        place,
        op,
        v,
        k,
    )
}

// The right operand of an operation has its value.
fn second_given(
    v: Value,
    store: &KeptStore,
    place: u32,
    op: Binary,
    left: Value,
) -> Result<Progress, NoMemory>
    ensures { IfOk result (λ g. (p : SharedProgram) (locals : List control.Variable) (k : control.Use) → Continues (λ h. turns.second_way place (binary_of op) left) p locals store.now.now v k g) }
{
    let answer = of_two(store.store(), op, left, v)?;
    Ok(done(answer, place))
}

// The only operand of an operation has its value.
fn only_given(v: Value, store: &KeptStore, place: u32, op: &Rc<Unary>) -> Progress
    ensures { (p : SharedProgram) (locals : List control.Variable) (k : control.Use) → Continues (λ h. turns.only_way place (unary_of op.now.value)) p locals store.now.now v k result }
{
    done(of_one(store.store(), op, v), place)
}

// The right operand of `&&` or `||` has its value.
fn second_tested(v: Value, store: &KeptStore, place: u32) -> Progress
    ensures { (p : SharedProgram) (locals : List control.Variable) (k : control.Use) → Continues (λ h. turns.second_test_way place) p locals store.now.now v k result }
{
    second_test(store.store(), place, v)
}

// The left operand of `&&` or `||` has its value.
fn first_tested(
    v: Value,
    right: &Rc<SharedExpr>,
    alloc: Global,
    program: &SharedProgram,
    locals: &Locals,
    store: &KeptStore,
    place: u32,
    decides: bool,
    k: &Rc<Use>,
) -> Result<Progress, NoMemory>
    ensures { IfOk result (λ g. Continues (λ h. turns.first_test_way place decides (expr_of right.now.value) (turns.run h (expr_of right.now.value))) program.now locals.now.now store.now.now v (use_of k.now.value) g) }
{
    match truth_of(store.store(), v) {
        Err(rule) => Ok(Progress::Ends(Pending::Broke(rule, place))),
        Ok(holds) => {
            let found = store.store();
            either(right, alloc, program, locals, found, decides, holds, k)
        }
    }
}

// The condition of `?:` has its value.
fn chosen(
    v: Value,
    one: &Rc<SharedExpr>,
    other: &Rc<SharedExpr>,
    alloc: Global,
    program: &SharedProgram,
    locals: &Locals,
    store: &KeptStore,
    place: u32,
    k: &Rc<Use>,
) -> Result<Progress, NoMemory>
    ensures { IfOk result (λ g. Continues (λ h. turns.choice_way place (expr_of one.now.value) (expr_of other.now.value) (turns.run h (expr_of one.now.value)) (turns.run h (expr_of other.now.value))) program.now locals.now.now store.now.now v (use_of k.now.value) g) }
{
    match truth_of(store.store(), v) {
        Err(rule) => Ok(Progress::Ends(Pending::Broke(rule, place))),
        Ok(holds) => {
            if holds {
                expr(one, alloc, program, locals, store.store(), k)
            } else {
                expr(other, alloc, program, locals, store.store(), k)
            }
        }
    }
}

// The second statement of an `if`, if there is one.
fn otherwise(
    other: &Option<Rc<SharedStmt>>,
    alloc: Global,
    program: &SharedProgram,
    function: u32,
    locals: &mut Locals,
    store: &mut KeptStore,
    at: u32,
    k: &Rc<Todo>,
) -> Result<Exit, NoMemory>
    ensures exits { IfOk result (λ g. ExitsAs (λ h w. turns.run_stmt h (stmt_or_nothing at other.now) w) program.now function (todo_of k.now.value) locals.old.now store.old.now locals.new.now store.new.now g) }
    ensures locals { OnOk result (locals.new.kept ≡ locals.old.kept) }
    ensures store { OnOk result (store.new.kept ≡ store.old.kept) }
{
    match other {
        None => Ok(Exit::End),
        Some(s) => stmt(s, alloc, program, function, locals, store, k),
    }
}

// The condition of an `if` has its value.
fn branch(
    v: Value,
    one: &Rc<SharedStmt>,
    other: &Option<Rc<SharedStmt>>,
    alloc: Global,
    program: &SharedProgram,
    function: u32,
    locals: &mut Locals,
    store: &mut KeptStore,
    place: u32,
    at: u32,
    k: &Rc<Todo>,
) -> Result<Exit, NoMemory>
    ensures exits { IfOk result (λ g. ExitsAs (λ h w. (turns.if_way place (stmt_of one.now.value) (stmt_or_nothing at other.now) (turns.run_stmt h (stmt_of one.now.value)) (turns.run_stmt h (stmt_or_nothing at other.now)) w).go v) program.now function (todo_of k.now.value) locals.old.now store.old.now locals.new.now store.new.now g) }
    ensures locals { OnOk result (locals.new.kept ≡ locals.old.kept) }
    ensures store { OnOk result (store.new.kept ≡ store.old.kept) }
{
    match truth_of(store.store(), v) {
        Err(rule) => Ok(Exit::Ends(Pending::Broke(rule, place))),
        Ok(holds) => {
            if holds {
                stmt(one, alloc, program, function, locals, store, k)
            } else {
                otherwise(other, alloc, program, function, locals, store, at, k)
            }
        }
    }
}

// The condition of a loop has its value.
fn round_if(
    v: Value,
    alloc: Global,
    program: &SharedProgram,
    function: u32,
    locals: &mut Locals,
    store: &mut KeptStore,
    place: u32,
    l: &Rc<LoopParts>,
    k: &Rc<Todo>,
) -> Result<Exit, NoMemory>
    ensures exits { IfOk result (λ g. ExitsAs (λ h w. (turns.loop_test_way h place (loop_of l.now.value) (turns.run_stmt h (loop_of l.now.value).body) (turns.run_stmt h (loop_of l.now.value).step) w).go v) program.now function (todo_of k.now.value) locals.old.now store.old.now locals.new.now store.new.now g) }
    ensures locals { OnOk result (locals.new.kept ≡ locals.old.kept) }
    ensures store { OnOk result (store.new.kept ≡ store.old.kept) }
{
    match truth_of(store.store(), v) {
        Err(rule) => Ok(Exit::Ends(Pending::Broke(rule, place))),
        Ok(holds) => {
            if holds {
                enter_body(
                    &l.body, alloc, program, function, locals, store, &l.step, l, k,
                )
            } else {
                Ok(Exit::End)
            }
        }
    }
}

// What waits for a call's value that is used.
fn wanted(at: u32, k: &Rc<Use>) -> Result<Wait, NoMemory>
    ensures { IfOk result (λ wait. wait_of wait ≡ control.wanted at (use_of k.now.value)) }
{
    Ok(Wait::Wanted(at, k.clone()?))
}

// What waits for a call's value that is dropped.
fn dropping(k: &Rc<Todo>) -> Result<Wait, NoMemory>
    ensures { IfOk result (λ wait. wait_of wait ≡ control.dropped (todo_of k.now.value)) }
{
    Ok(Wait::Dropped(k.clone()?))
}

// An argument of a call is there: the others follow, and the call.
fn next_argument(
    v: Value,
    rest: &Rc<SharedArgs>,
    alloc: Global,
    program: &SharedProgram,
    locals: &Locals,
    store: &KeptStore,
    place: u32,
    callee: &Rc<Callee>,
    before: &Rc<Values>,
    wait: &Wait,
) -> Result<Pending, NoMemory>
    ensures { IfOk result (λ q. FlowsCall program.now locals.now.now store.now.now place (callee_of callee.now.value) (args_of rest.now.value) (values_of before.now.value ++ v ∷ []) (wait_of wait.now) q) }
{
    let all = one_more(alloc, v, before)?;
    let found = store.store();
    arguments(
        rest, alloc, program, locals, found, place, callee, &all, wait,
    )
}

// The value of a in `a op= b` is there: the result is stored, which ends the turn.
fn update_read(
    program: &SharedProgram,
    store: &KeptStore,
    u: &Updating,
    at: Value,
    by: Value,
    v: Value,
    k: &Rc<Todo>,
) -> Result<Pending, NoMemory>
    ensures { IfOk result (λ q. StoresUpdated program.now store.now.now (updating_of u.now) at by v (todo_of k.now.value) q) }
{
    match updated(&program.structs, store.store(), &u.ty, u.op, v, by)? {
        Ok(r) => store_value(Site::plain(u.place), at, r, k),
        Err(rule) => Ok(Pending::Broke(rule, u.operator)),
    }
}

// The same of what is left to do, by the name that it is kept under.
fn complete(
    k: &Rc<Todo>,
    left: Exit,
    alloc: Global,
    program: &SharedProgram,
    function: u32,
    locals: &mut Locals,
    store: &mut KeptStore,
) -> Result<Pending, NoMemory>
    ensures comes { IfOk result (λ q. Finishes program.now function (todo_of k.now.value) left locals.old.now store.old.now locals.new.now store.new.now q) }
    ensures locals { OnOk result (locals.new.kept ≡ locals.old.kept) }
    ensures store { OnOk result (store.new.kept ≡ store.old.kept) }
{
    finish(k, left, alloc, program, function, locals, store)
}

// How an expression that got so far goes on.
#[cycle(uses)]
fn pass(
    flow: Progress,
    k: &Rc<Use>,
    alloc: Global,
    program: &SharedProgram,
    function: u32,
    locals: &mut Locals,
    store: &mut KeptStore,
) -> Result<Pending, NoMemory>
    ensures comes { IfOk result (λ q. FlowsOn program.now function (use_of k.now.value) flow locals.old.now store.old.now locals.new.now store.new.now q) }
    ensures locals { OnOk result (locals.new.kept ≡ locals.old.kept) }
    ensures store { OnOk result (store.new.kept ≡ store.old.kept) }
{
    match flow {
        Progress::Ends(q) => Ok(q),
        Progress::Gives(v) => give(k, v, alloc, program, function, locals, store),
    }
}

/// What uses a value.
#[cycle(uses)]
pub fn give(
    k: &Use,
    v: Value,
    alloc: Global,
    program: &SharedProgram,
    function: u32,
    locals: &mut Locals,
    store: &mut KeptStore,
) -> Result<Pending, NoMemory>
    ensures comes { IfOk result (λ q. GivesTo program.now function (use_of k.now) v locals.old.now store.old.now locals.new.now store.new.now q) }
    ensures locals { OnOk result (locals.new.kept ≡ locals.old.kept) }
    ensures store { OnOk result (store.new.kept ≡ store.old.kept) }
{
    match k {
        Use::FirstOf(place, op, right, k) => pass_first(
            *place, *op, k, right, v, alloc, program, function, locals, store,
        ),
        Use::SecondOf(place, op, left, k) => pass_second(
            *place, *op, *left, k, v, alloc, program, function, locals, store,
        ),
        Use::OnlyOf(place, op, k) => pass_only(
            *place, op, k, v, alloc, program, function, locals, store,
        ),
        Use::PlaceRead(site, how, k) => pass_read(
            *site, *how, k, v, alloc, program, function, locals, store,
        ),
        Use::FirstTest(place, decides, right, k) => pass_first_test(
            *place, *decides, k, right, v, alloc, program, function, locals, store,
        ),
        Use::SecondTest(place, k) => pass_second_test(
            *place, k, v, alloc, program, function, locals, store,
        ),
        Use::Choice(place, one, other, k) => pass_choice(
            *place, k, one, other, v, alloc, program, function, locals, store,
        ),
        Use::Argument(place, callee, before, rest, at, k) => call_wanted(
            *place, callee, before, rest, *at, k, v, alloc, program, locals, store,
        ),
        Use::DroppedArgument(place, callee, before, rest, k) => call_dropping(
            *place, callee, before, rest, k, v, alloc, program, locals, store,
        ),
        Use::ToCaller => Ok(Pending::Leave(Some(v))),
        Use::ToPlace(site, to, k) => store_value(*site, *to, v, k),
        Use::StructRight(place, ty, to, k) => copy_struct(program, *place, ty, *to, v, k),
        Use::UpdateRight(u, at, k) => update_right(u, alloc, *at, v, k),
        Use::UpdateRead(u, at, by, k) => update_read(program, store, u, *at, *by, v, k),
        Use::ToNowhere(k) => complete(k, Exit::End, alloc, program, function, locals, store),
        Use::ToLocal(number, k) => finish_local(
            *number, k, v, alloc, program, function, locals, store,
        ),
        Use::LeftPlace(site, right, k) => finish_place(
            *site, right, k, v, alloc, program, function, locals, store,
        ),
        Use::StructLeft(place, ty, right, k) => finish_struct(
            *place, ty, right, k, v, alloc, program, function, locals, store,
        ),
        Use::UpdateLeft(u, right, k) => finish_left(
            u, right, k, v, alloc, program, function, locals, store,
        ),
        Use::UpdateLocal(u, number, k) => finish_variable(
            u, *number, k, v, alloc, program, function, locals, store,
        ),
        Use::IfTest(place, at, one, other, k) => finish_if(
            *place, *at, one, other, k, v, alloc, program, function, locals, store,
        ),
        Use::LoopTest(place, l, k) => finish_round(
            *place, l, k, v, alloc, program, function, locals, store,
        ),
        Use::SwitchTest(labels, body, k) => finish_switch(
            labels, body, k, v, alloc, program, function, locals, store,
        ),
    }
}

// The left one has its value.
#[cycle(uses)]
fn pass_first(
    place: u32,
    op: Binary,
    k: &Rc<Use>,
    right: &Rc<SharedExpr>,
    v: Value,
    alloc: Global,
    program: &SharedProgram,
    function: u32,
    locals: &mut Locals,
    store: &mut KeptStore,
) -> Result<Pending, NoMemory>
    ensures comes { IfOk result (λ q. GivesTo program.now function (control.first_of place (binary_of op) (expr_of right.now.value) (use_of k.now.value)) v locals.old.now store.old.now locals.new.now store.new.now q) }
    ensures locals { OnOk result (locals.new.kept ≡ locals.old.kept) }
    ensures store { OnOk result (store.new.kept ≡ store.old.kept) }
{
    let flow = first_given(v, right, alloc, program, locals, store, place, op, k)?;
    pass(flow, k, alloc, program, function, locals, store)
}

// The left one of `&&` or `||` has its value.
#[cycle(uses)]
fn pass_first_test(
    place: u32,
    decides: bool,
    k: &Rc<Use>,
    right: &Rc<SharedExpr>,
    v: Value,
    alloc: Global,
    program: &SharedProgram,
    function: u32,
    locals: &mut Locals,
    store: &mut KeptStore,
) -> Result<Pending, NoMemory>
    ensures comes { IfOk result (λ q. GivesTo program.now function (control.first_test place decides (expr_of right.now.value) (use_of k.now.value)) v locals.old.now store.old.now locals.new.now store.new.now q) }
    ensures locals { OnOk result (locals.new.kept ≡ locals.old.kept) }
    ensures store { OnOk result (store.new.kept ≡ store.old.kept) }
{
    let flow = first_tested(v, right, alloc, program, locals, store, place, decides, k)?;
    pass(flow, k, alloc, program, function, locals, store)
}

// The condition of `?:` has its value.
#[cycle(uses)]
fn pass_choice(
    place: u32,
    k: &Rc<Use>,
    one: &Rc<SharedExpr>,
    other: &Rc<SharedExpr>,
    v: Value,
    alloc: Global,
    program: &SharedProgram,
    function: u32,
    locals: &mut Locals,
    store: &mut KeptStore,
) -> Result<Pending, NoMemory>
    ensures comes { IfOk result (λ q. GivesTo program.now function (control.choice place (expr_of one.now.value) (expr_of other.now.value) (use_of k.now.value)) v locals.old.now store.old.now locals.new.now store.new.now q) }
    ensures locals { OnOk result (locals.new.kept ≡ locals.old.kept) }
    ensures store { OnOk result (store.new.kept ≡ store.old.kept) }
{
    let flow = chosen(v, one, other, alloc, program, locals, store, place, k)?;
    pass(flow, k, alloc, program, function, locals, store)
}

// The right one has its value.
#[cycle(uses)]
fn pass_second(
    place: u32,
    op: Binary,
    left: Value,
    k: &Rc<Use>,
    v: Value,
    alloc: Global,
    program: &SharedProgram,
    function: u32,
    locals: &mut Locals,
    store: &mut KeptStore,
) -> Result<Pending, NoMemory>
    ensures comes { IfOk result (λ q. GivesTo program.now function (control.second_of place (binary_of op) left (use_of k.now.value)) v locals.old.now store.old.now locals.new.now store.new.now q) }
    ensures locals { OnOk result (locals.new.kept ≡ locals.old.kept) }
    ensures store { OnOk result (store.new.kept ≡ store.old.kept) }
{
    let flow = second_given(v, store, place, op, left)?;
    pass(flow, k, alloc, program, function, locals, store)
}

// The only one has its value.
#[cycle(uses)]
fn pass_only(
    place: u32,
    op: &Rc<Unary>,
    k: &Rc<Use>,
    v: Value,
    alloc: Global,
    program: &SharedProgram,
    function: u32,
    locals: &mut Locals,
    store: &mut KeptStore,
) -> Result<Pending, NoMemory>
    ensures comes { IfOk result (λ q. GivesTo program.now function (control.only_of place (unary_of op.now.value) (use_of k.now.value)) v locals.old.now store.old.now locals.new.now store.new.now q) }
    ensures locals { OnOk result (locals.new.kept ≡ locals.old.kept) }
    ensures store { OnOk result (store.new.kept ≡ store.old.kept) }
{
    let flow = only_given(v, store, place, op);
    pass(flow, k, alloc, program, function, locals, store)
}

// The place that is read has its value.
#[cycle(uses)]
fn pass_read(
    site: Site,
    how: Access,
    k: &Rc<Use>,
    v: Value,
    alloc: Global,
    program: &SharedProgram,
    function: u32,
    locals: &mut Locals,
    store: &mut KeptStore,
) -> Result<Pending, NoMemory>
    ensures comes { IfOk result (λ q. GivesTo program.now function (control.place_read site.place how site.atomic (use_of k.now.value)) v locals.old.now store.old.now locals.new.now store.new.now q) }
    ensures locals { OnOk result (locals.new.kept ≡ locals.old.kept) }
    ensures store { OnOk result (store.new.kept ≡ store.old.kept) }
{
    let flow = read(site, how, v, k)?;
    pass(flow, k, alloc, program, function, locals, store)
}

// The right one has its value.
#[cycle(uses)]
fn pass_second_test(
    place: u32,
    k: &Rc<Use>,
    v: Value,
    alloc: Global,
    program: &SharedProgram,
    function: u32,
    locals: &mut Locals,
    store: &mut KeptStore,
) -> Result<Pending, NoMemory>
    ensures comes { IfOk result (λ q. GivesTo program.now function (control.second_test place (use_of k.now.value)) v locals.old.now store.old.now locals.new.now store.new.now q) }
    ensures locals { OnOk result (locals.new.kept ≡ locals.old.kept) }
    ensures store { OnOk result (store.new.kept ≡ store.old.kept) }
{
    let flow = second_tested(v, store, place);
    pass(flow, k, alloc, program, function, locals, store)
}

// The value of a local is there.
fn finish_local(
    number: u32,
    k: &Rc<Todo>,
    v: Value,
    alloc: Global,
    program: &SharedProgram,
    function: u32,
    locals: &mut Locals,
    store: &mut KeptStore,
) -> Result<Pending, NoMemory>
    ensures comes { IfOk result (λ q. GivesTo program.now function (control.to_local number (todo_of k.now.value)) v locals.old.now store.old.now locals.new.now store.new.now q) }
    ensures locals { OnOk result (locals.new.kept ≡ locals.old.kept) }
    ensures store { OnOk result (store.new.kept ≡ store.old.kept) }
{
    locals.set(number, Variable::Holds(v))?;
    complete(k, Exit::End, alloc, program, function, locals, store)
}

// The place of the left side of an assignment has its value.
fn finish_place(
    site: Site,
    right: &Rc<SharedExpr>,
    k: &Rc<Todo>,
    v: Value,
    alloc: Global,
    program: &SharedProgram,
    function: u32,
    locals: &mut Locals,
    store: &mut KeptStore,
) -> Result<Pending, NoMemory>
    ensures comes { IfOk result (λ q. GivesTo program.now function (control.left_place site.place site.atomic (expr_of right.now.value) (todo_of k.now.value)) v locals.old.now store.old.now locals.new.now store.new.now q) }
    ensures locals { OnOk result (locals.new.kept ≡ locals.old.kept) }
    ensures store { OnOk result (store.new.kept ≡ store.old.kept) }
{
    let exit = assign_place(right, alloc, program, locals, store, site, v, k)?;
    complete(k, exit, alloc, program, function, locals, store)
}

// The place of the left side of an assigned struct has its value.
fn finish_struct(
    place: u32,
    ty: &Rc<CType>,
    right: &Rc<SharedExpr>,
    k: &Rc<Todo>,
    v: Value,
    alloc: Global,
    program: &SharedProgram,
    function: u32,
    locals: &mut Locals,
    store: &mut KeptStore,
) -> Result<Pending, NoMemory>
    ensures comes { IfOk result (λ q. GivesTo program.now function (control.struct_left place (type_view ty.now.value) (expr_of right.now.value) (todo_of k.now.value)) v locals.old.now store.old.now locals.new.now store.new.now q) }
    ensures locals { OnOk result (locals.new.kept ≡ locals.old.kept) }
    ensures store { OnOk result (store.new.kept ≡ store.old.kept) }
{
    let exit = assign_struct(right, alloc, program, locals, store, place, ty, v, k)?;
    complete(k, exit, alloc, program, function, locals, store)
}

// The place of a in `a op= b` has its value.
fn finish_left(
    u: &Rc<Updating>,
    right: &Rc<SharedExpr>,
    k: &Rc<Todo>,
    v: Value,
    alloc: Global,
    program: &SharedProgram,
    function: u32,
    locals: &mut Locals,
    store: &mut KeptStore,
) -> Result<Pending, NoMemory>
    ensures comes { IfOk result (λ q. GivesTo program.now function (control.update_left (updating_of u.now.value) (expr_of right.now.value) (todo_of k.now.value)) v locals.old.now store.old.now locals.new.now store.new.now q) }
    ensures locals { OnOk result (locals.new.kept ≡ locals.old.kept) }
    ensures store { OnOk result (store.new.kept ≡ store.old.kept) }
{
    let exit = update_left(right, alloc, program, locals, store, u, v, k)?;
    complete(k, exit, alloc, program, function, locals, store)
}

// The value of b, where a is a local without a block has its value.
fn finish_variable(
    u: &Rc<Updating>,
    number: u32,
    k: &Rc<Todo>,
    v: Value,
    alloc: Global,
    program: &SharedProgram,
    function: u32,
    locals: &mut Locals,
    store: &mut KeptStore,
) -> Result<Pending, NoMemory>
    ensures comes { IfOk result (λ q. GivesTo program.now function (control.update_local (updating_of u.now.value) number (todo_of k.now.value)) v locals.old.now store.old.now locals.new.now store.new.now q) }
    ensures locals { OnOk result (locals.new.kept ≡ locals.old.kept) }
    ensures store { OnOk result (store.new.kept ≡ store.old.kept) }
{
    let exit = update_variable(program, locals, store, u, number, v)?;
    complete(k, exit, alloc, program, function, locals, store)
}

// The condition of an `if` has its value.
fn finish_if(
    place: u32,
    at: u32,
    one: &Rc<SharedStmt>,
    other: &Option<Rc<SharedStmt>>,
    k: &Rc<Todo>,
    v: Value,
    alloc: Global,
    program: &SharedProgram,
    function: u32,
    locals: &mut Locals,
    store: &mut KeptStore,
) -> Result<Pending, NoMemory>
    ensures comes { IfOk result (λ q. GivesTo program.now function (control.if_test place (stmt_of one.now.value) (stmt_or_nothing at other.now) (todo_of k.now.value)) v locals.old.now store.old.now locals.new.now store.new.now q) }
    ensures locals { OnOk result (locals.new.kept ≡ locals.old.kept) }
    ensures store { OnOk result (store.new.kept ≡ store.old.kept) }
{
    let exit = branch(
        v, one, other, alloc, program, function, locals, store, place, at, k,
    )?;
    complete(k, exit, alloc, program, function, locals, store)
}

// The condition of a loop has its value.
fn finish_round(
    place: u32,
    l: &Rc<LoopParts>,
    k: &Rc<Todo>,
    v: Value,
    alloc: Global,
    program: &SharedProgram,
    function: u32,
    locals: &mut Locals,
    store: &mut KeptStore,
) -> Result<Pending, NoMemory>
    ensures comes { IfOk result (λ q. GivesTo program.now function (control.loop_test place (loop_of l.now.value) (todo_of k.now.value)) v locals.old.now store.old.now locals.new.now store.new.now q) }
    ensures locals { OnOk result (locals.new.kept ≡ locals.old.kept) }
    ensures store { OnOk result (store.new.kept ≡ store.old.kept) }
{
    let exit = round_if(v, alloc, program, function, locals, store, place, l, k)?;
    complete(k, exit, alloc, program, function, locals, store)
}

// What chooses a label of a `switch` has its value.
fn finish_switch(
    labels: &Rc<SharedLabels>,
    body: &Rc<SharedRow>,
    k: &Rc<Todo>,
    v: Value,
    alloc: Global,
    program: &SharedProgram,
    function: u32,
    locals: &mut Locals,
    store: &mut KeptStore,
) -> Result<Pending, NoMemory>
    ensures comes { IfOk result (λ q. GivesTo program.now function (control.switch_test (labels_of labels.now.value) (row_of body.now.value) (todo_of k.now.value)) v locals.old.now store.old.now locals.new.now store.new.now q) }
    ensures locals { OnOk result (locals.new.kept ≡ locals.old.kept) }
    ensures store { OnOk result (store.new.kept ≡ store.old.kept) }
{
    let exit = enter_switch(v, labels, body, alloc, program, function, locals, store, k)?;
    complete(k, exit, alloc, program, function, locals, store)
}

// An argument of a call whose value is used has its value.
fn call_wanted(
    place: u32,
    callee: &Rc<Callee>,
    before: &Rc<Values>,
    rest: &Rc<SharedArgs>,
    at: u32,
    k: &Rc<Use>,
    v: Value,
    alloc: Global,
    program: &SharedProgram,
    locals: &Locals,
    store: &KeptStore,
) -> Result<Pending, NoMemory>
    ensures { IfOk result (λ q. (function : ℕ) → GivesTo program.now function (control.argument place (callee_of callee.now.value) (values_of before.now.value) (args_of rest.now.value) (control.wanted at (use_of k.now.value))) v locals.now.now store.now.now locals.now.now store.now.now q) }
{
    let wait = wanted(at, k)?;
    next_argument(
        v, rest, alloc, program, locals, store, place, callee, before, &wait,
    )
}

// An argument of a call whose value is dropped has its value.
fn call_dropping(
    place: u32,
    callee: &Rc<Callee>,
    before: &Rc<Values>,
    rest: &Rc<SharedArgs>,
    k: &Rc<Todo>,
    v: Value,
    alloc: Global,
    program: &SharedProgram,
    locals: &Locals,
    store: &KeptStore,
) -> Result<Pending, NoMemory>
    ensures { IfOk result (λ q. (function : ℕ) → GivesTo program.now function (control.argument place (callee_of callee.now.value) (values_of before.now.value) (args_of rest.now.value) (control.dropped (todo_of k.now.value))) v locals.now.now store.now.now locals.now.now store.now.now q) }
{
    let wait = dropping(k)?;
    next_argument(
        v, rest, alloc, program, locals, store, place, callee, before, &wait,
    )
}
