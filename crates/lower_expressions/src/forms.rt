//! The parts of which forms are made.

ghost use Rattle.std.specs.Prelude.{◌≡◌, OnOk, IfOk, map, suc, [], ◌∷◌, None, Some, false, pos};
ghost use Rattle.block_store.specs.declared.values.Change.TheVariants.{Add};
ghost use Rattle.c_tree.specs.Typed.{print, mutex_init, atomic_swap, atomic_compare, atomic_store, no_exprs, exprs_of};
ghost use Rattle.c_tree.specs.TypedViews.{type_view, layout_view, expr_view, lib_view, piece_view};
ghost use Rattle.c_meaning.specs.Values.{access_of_type, operand_types};
ghost use Rattle.struct_ir.specs.Nodes.{Nodes, copy, copy_bytes, load, store, change};
ghost use Rattle.struct_ir.specs.meaning.Blocks.{same_type};
ghost use Rattle.struct_ir.specs.Views.{place_view, calc_view, action_view, followed};
ghost use Rattle.lower_forms.specs.Forms as forms;
ghost use Rattle.lower_forms.specs.Forms.{sized_copy};
ghost use Rattle.lower_expressions.specs.FrameViews.{reach_view};

use crate::frame::{Reach, at_temp};
use crate::nodes::{acts, after, calls, sets, sets_constant, sets_int, sets_long};
use crate::types::{changed_number, is_number, number_type, unsigned_of};
use ak_words::{IntType, NoMemory, Num, Op};
use block_store::{Access, Change};
use c_meaning::types::{access_of_type, align_in, element_size, operand_types, size_in};
use c_tree::copies::copy_pieces;
use c_tree::typed::{CType, Expr, Layout, Lib, Piece};
use std::alloc::Global;
use struct_ir::{Action, Calc, Node, Place};

/// A number or a pointer is read.
pub fn loads(
    alloc: Global,
    out: &mut Vec<Node>,
    place: u32,
    ty: &CType,
    r: Reach,
    t: u32,
) -> Result<(), NoMemory>
    ensures { OnOk result ((rest : Nodes) → followed out.new.items rest ≡ followed out.old.items (forms.loads place (type_view ty.now) (reach_view r) t rest)) }
{
    loads_at(alloc, out, place, ty, r.place(t)?, t)
}

/// A number or a pointer is read at a place, and comes to `t`.
pub fn loads_at(
    alloc: Global,
    out: &mut Vec<Node>,
    place: u32,
    ty: &CType,
    at: Place,
    t: u32,
) -> Result<(), NoMemory>
    ensures { OnOk result ((rest : Nodes) → followed out.new.items rest ≡ followed out.old.items (forms.acts place (load (access_of_type (type_view ty.now))) (place_view at ∷ []) (Some t) [] rest)) }
{
    let places = vec![in alloc; at]?;
    let action = Action::Load(access_of_type(ty));
    acts(alloc, out, place, action, places, Some(t), Vec::new(alloc))
}

/// The pointer to a stack object.
pub fn object_nodes(out: &mut Vec<Node>, place: u32, object: u32, t: u32) -> Result<(), NoMemory>
    ensures { OnOk result ((rest : Nodes) → followed out.new.items rest ≡ followed out.old.items (forms.object_nodes place object t rest)) }
{
    sets(out, place, t, Calc::Object(object))?;
    sets(out, place, t, Calc::Copy(t))
}

/// The value of a local, by its home.
pub fn local_value(
    alloc: Global,
    out: &mut Vec<Node>,
    place: u32,
    ty: &CType,
    number: u32,
    t: u32,
    home: Option<u32>,
) -> Result<(), NoMemory>
    ensures { OnOk result ((rest : Nodes) → followed out.new.items rest ≡ followed out.old.items (forms.local_value place (type_view ty.now) number t home rest)) }
{
    match home {
        None => sets(out, place, t, Calc::Copy(number)),
        Some(object) => {
            object_nodes(out, place, object, t)?;
            loads(alloc, out, place, ty, Reach::Found, t)
        }
    }
}

/// The pointer to a local, by its home.
pub fn local_place(
    out: &mut Vec<Node>,
    place: u32,
    number: u32,
    t: u32,
    home: Option<u32>,
) -> Result<(), NoMemory>
    ensures { OnOk result ((rest : Nodes) → followed out.new.items rest ≡ followed out.old.items (forms.local_place place number t home rest)) }
{
    match home {
        None => sets(out, place, t, Calc::Copy(number)),
        Some(object) => object_nodes(out, place, object, t),
    }
}

/// The pointer in `t` moves to a member; the register behind the object's takes the offset.
pub fn member_nodes(
    out: &mut Vec<Node>,
    place: u32,
    offset: u32,
    r: Reach,
    t: u32,
) -> Result<(), NoMemory>
    ensures { OnOk result ((rest : Nodes) → followed out.new.items rest ≡ followed out.old.items (forms.member_nodes place offset (forms.behind (reach_view r) t) t rest)) }
{
    let w = r.behind(t)?;
    sets_long(out, place, w, offset)?;
    sets(out, place, t, Calc::PtrAdd(t, w, 1))
}

fn same_type(s: IntType, t: IntType) -> bool
    ensures { result ≡ same_type s t }
{
    s.bits == t.bits && s.signed == t.signed
}

/// The number in `t`, of the type `from`, becomes one of type `to`.
pub fn becomes(
    out: &mut Vec<Node>,
    place: u32,
    from: IntType,
    to: IntType,
    t: u32,
) -> Result<(), NoMemory>
    ensures { OnOk result ((rest : Nodes) → followed out.new.items rest ≡ followed out.old.items (forms.converts_number place from to t rest)) }
{
    if same_type(from, to) {
        return Ok(());
    }
    sets(out, place, t, Calc::Convert(to, t))
}

/// A conversion from one type to another.
pub fn converts(
    out: &mut Vec<Node>,
    place: u32,
    from: &CType,
    ty: &CType,
    t: u32,
) -> Result<(), NoMemory>
    ensures { OnOk result ((rest : Nodes) → followed out.new.items rest ≡ followed out.old.items (forms.converts place (type_view from.now) (type_view ty.now) t rest)) }
{
    match ty {
        CType::Int(to) => becomes(out, place, number_type(from), *to, t),
        _ => Ok(()),
    }
}

// The registers of arguments, the first of them in `t`.
fn temps_of(alloc: Global, args: &[Expr], t: u32) -> Result<Vec<u32>, NoMemory>
    ensures { IfOk result (λ v. v.items ≡ forms.temps_of (exprs_of (map expr_view args.now)) t) }
{
    let mut temps = Vec::new(alloc);
    let mut u = t;
    for _e in args {
        temps.push(u)?;
        u = after(u)?;
    }
    Ok(temps)
}

/// A function is called with the arguments in the registers from `t` on.
pub fn calls_with(
    alloc: Global,
    out: &mut Vec<Node>,
    place: u32,
    to: Option<u32>,
    function: u32,
    args: &[Expr],
    t: u32,
) -> Result<(), NoMemory>
    ensures { OnOk result ((rest : Nodes) → followed out.new.items rest ≡ followed out.old.items (forms.calls place to function (forms.temps_of (exprs_of (map expr_view args.now)) t) rest)) }
{
    let temps = temps_of(alloc, args, t)?;
    calls(alloc, out, place, to, function, temps)
}

/// A function is called, and its value, which is missed at once where there is none, comes to `t`.
pub fn called(
    alloc: Global,
    out: &mut Vec<Node>,
    place: u32,
    function: u32,
    args: &[Expr],
    t: u32,
) -> Result<(), NoMemory>
    ensures { OnOk result ((rest : Nodes) → followed out.new.items rest ≡ followed out.old.items (forms.calls place (Some t) function (forms.temps_of (exprs_of (map expr_view args.now)) t) (forms.sets place t (copy t) rest))) }
{
    calls_with(alloc, out, place, Some(t), function, args, t)?;
    sets(out, place, t, Calc::Copy(t))
}

/// The registers of those arguments that are numbers.
fn number_temps(alloc: Global, args: &[Expr], t: u32) -> Result<Vec<u32>, NoMemory>
    ensures { IfOk result (λ v. v.items ≡ forms.number_temps (exprs_of (map expr_view args.now)) t) }
{
    let mut temps = Vec::new(alloc);
    let mut u = t;
    for e in args {
        if is_number(&e.ty) {
            temps.push(u)?;
        }
        u = after(u)?;
    }
    Ok(temps)
}

/// What those arguments point to that are pointers.
fn text_places(alloc: Global, args: &[Expr], t: u32) -> Result<Vec<Place>, NoMemory>
    ensures { IfOk result (λ v. map place_view v.items ≡ forms.text_places (exprs_of (map expr_view args.now)) t) }
{
    let mut places = Vec::new(alloc);
    let mut u = t;
    for e in args {
        if !is_number(&e.ty) {
            places.push(at_temp(u))?;
        }
        u = after(u)?;
    }
    Ok(places)
}

/// A call of the library, whose arguments stand in the registers from `t` on; its value comes to
/// `t`.
pub fn lib_nodes(
    alloc: Global,
    out: &mut Vec<Node>,
    place: u32,
    lib: &Lib,
    args: &[Expr],
    t: u32,
) -> Result<(), NoMemory>
    ensures { OnOk result ((rest : Nodes) → followed out.new.items rest ≡ followed out.old.items (forms.lib_nodes place (lib_view lib.now) (exprs_of (map expr_view args.now)) t rest)) }
{
    match lib {
        Lib::Print(pieces) => print_nodes(alloc, out, place, pieces, args, t),
        Lib::Malloc => word_nodes(alloc, out, place, Action::Malloc, Some(t), t),
        Lib::Calloc => two_word_nodes(alloc, out, place, Action::Calloc, t),
        Lib::Realloc => two_word_nodes(alloc, out, place, Action::Realloc, t),
        Lib::Free => word_nodes(alloc, out, place, Action::Free, None, t),
        Lib::Copy => copying(alloc, out, place, t),
        Lib::Start(function) => {
            let u = after(t)?;
            place_nodes(alloc, out, place, Action::Start(*function), t, Some(t), u)
        }
        Lib::Join => {
            let u = after(t)?;
            place_nodes(alloc, out, place, Action::Join, u, Some(t), t)
        }
        Lib::MutexInit => mutex_init(alloc, out, place, t),
        Lib::MutexLock => mutex_call(alloc, out, place, Action::Lock, t),
        Lib::MutexUnlock => mutex_call(alloc, out, place, Action::Unlock, t),
        Lib::MutexDestroy => mutex_nodes(alloc, out, place, Action::Destroy, t),
        Lib::AtomicAdd => summing(alloc, out, place, false, args, t),
        Lib::AtomicSub => summing(alloc, out, place, true, args, t),
        Lib::AtomicSwap => exchanging(alloc, out, place, args, t),
        Lib::AtomicCompare => comparing(alloc, out, place, args, t),
        Lib::AtomicStore => storing(alloc, out, place, args, t),
    }
}

// printf: the numbers and the texts among the arguments.
fn print_nodes(
    alloc: Global,
    out: &mut Vec<Node>,
    place: u32,
    pieces: &[Piece],
    args: &[Expr],
    t: u32,
) -> Result<(), NoMemory>
    ensures { OnOk result ((rest : Nodes) → followed out.new.items rest ≡ followed out.old.items (forms.lib_nodes place (print (map piece_view pieces.now)) (exprs_of (map expr_view args.now)) t rest)) }
{
    let pieces = copy_pieces(alloc, pieces)?;
    let places = text_places(alloc, args, t)?;
    let temps = number_temps(alloc, args, t)?;
    acts(
        alloc,
        out,
        place,
        Action::Print(pieces),
        places,
        Some(t),
        temps,
    )
}

// An action that reads one register.
fn word_nodes(
    alloc: Global,
    out: &mut Vec<Node>,
    place: u32,
    action: Action,
    to: Option<u32>,
    t: u32,
) -> Result<(), NoMemory>
    ensures { OnOk result ((rest : Nodes) → followed out.new.items rest ≡ followed out.old.items (forms.acts place (action_view action) [] to (t ∷ []) rest)) }
{
    let temps = vec![in alloc; t]?;
    acts(alloc, out, place, action, Vec::new(alloc), to, temps)
}

// An action that reads two registers, and whose value comes to the first.
fn two_word_nodes(
    alloc: Global,
    out: &mut Vec<Node>,
    place: u32,
    action: Action,
    t: u32,
) -> Result<(), NoMemory>
    ensures { OnOk result ((rest : Nodes) → followed out.new.items rest ≡ followed out.old.items (forms.acts place (action_view action) [] (Some t) (t ∷ suc t ∷ []) rest)) }
{
    let u = after(t)?;
    let temps = vec![in alloc; t, u]?;
    acts(alloc, out, place, action, Vec::new(alloc), Some(t), temps)
}

// An action at one place, to which the pointer is in `at`, that reads one register.
fn place_nodes(
    alloc: Global,
    out: &mut Vec<Node>,
    place: u32,
    action: Action,
    at: u32,
    to: Option<u32>,
    t: u32,
) -> Result<(), NoMemory>
    ensures { OnOk result ((rest : Nodes) → followed out.new.items rest ≡ followed out.old.items (forms.acts place (action_view action) (forms.at_temp at ∷ []) to (t ∷ []) rest)) }
{
    let places = vec![in alloc; at_temp(at)]?;
    let temps = vec![in alloc; t]?;
    acts(alloc, out, place, action, places, to, temps)
}

// An action at one place.
fn mutex_nodes(
    alloc: Global,
    out: &mut Vec<Node>,
    place: u32,
    action: Action,
    at: u32,
) -> Result<(), NoMemory>
    ensures { OnOk result ((rest : Nodes) → followed out.new.items rest ≡ followed out.old.items (forms.acts place (action_view action) (forms.at_temp at ∷ []) None [] rest)) }
{
    let places = vec![in alloc; at_temp(at)]?;
    acts(alloc, out, place, action, places, None, Vec::new(alloc))
}

// A call of a mutex that gives 0.
fn mutex_call(
    alloc: Global,
    out: &mut Vec<Node>,
    place: u32,
    action: Action,
    t: u32,
) -> Result<(), NoMemory>
    ensures { OnOk result ((rest : Nodes) → followed out.new.items rest ≡ followed out.old.items (forms.acts place (action_view action) (forms.at_temp t ∷ []) None [] (forms.sets_int place t 0 rest))) }
{
    mutex_nodes(alloc, out, place, action, t)?;
    sets_int(out, place, t, 0)
}

// A mutex that nobody holds: the register behind `t` takes what is stored.
fn mutex_init(alloc: Global, out: &mut Vec<Node>, place: u32, t: u32) -> Result<(), NoMemory>
    ensures { OnOk result ((rest : Nodes) → followed out.new.items rest ≡ followed out.old.items (forms.lib_nodes place mutex_init no_exprs t rest)) }
{
    let u = after(t)?;
    sets_long(out, place, u, 0)?;
    let store = Action::Store(Access::Number(IntType::unsigned_long()));
    place_nodes(alloc, out, place, store, t, None, u)?;
    sets_int(out, place, t, 0)
}

// 0, of the unsigned type of the same width.
#[tactic(auto, using(crate::proofs::Zeros::zero_kept))]
fn unsigned_zero(t: IntType) -> Num
    ensures ty { result.ty ≡ forms.unsigned_of t }
    ensures value { result.value ≡ pos 0 }
{
    Num::wrapping(unsigned_of(t), 0)
}

// 0 minus the number in `u`, which is of the type `ty`: the register behind `u` takes the 0.
fn opposite_nodes(out: &mut Vec<Node>, place: u32, ty: IntType, u: u32) -> Result<(), NoMemory>
    ensures { OnOk result ((rest : Nodes) → followed out.new.items rest ≡ followed out.old.items (forms.opposite_nodes place ty u rest)) }
{
    let unsigned = unsigned_of(ty);
    let zero = after(u)?;
    sets(out, place, u, Calc::Convert(unsigned, u))?;
    sets_constant(out, place, zero, unsigned_zero(ty))?;
    sets(out, place, u, Calc::Apply(Op::Sub, unsigned, zero, u))?;
    sets(out, place, u, Calc::Convert(ty, u))
}

/// The number in `u` is added to the one at a place, or taken away from it, in one action.
pub fn change_nodes(
    alloc: Global,
    out: &mut Vec<Node>,
    place: u32,
    away: bool,
    ty: IntType,
    at: Place,
    u: u32,
    to: Option<u32>,
) -> Result<(), NoMemory>
    ensures { OnOk result ((rest : Nodes) → followed out.new.items rest ≡ followed out.old.items (forms.change_nodes place away ty (place_view at) u to rest)) }
{
    if away {
        opposite_nodes(out, place, ty, u)?;
        adding(alloc, out, place, ty, at, u, to)
    } else {
        adding(alloc, out, place, ty, at, u, to)
    }
}

// The number in `u` is added to the one at a place.
fn adding(
    alloc: Global,
    out: &mut Vec<Node>,
    place: u32,
    ty: IntType,
    at: Place,
    u: u32,
    to: Option<u32>,
) -> Result<(), NoMemory>
    ensures { OnOk result ((rest : Nodes) → followed out.new.items rest ≡ followed out.old.items (forms.acts place (change Add ty) (place_view at ∷ []) to (u ∷ []) rest)) }
{
    let places = vec![in alloc; at]?;
    let temps = vec![in alloc; u]?;
    let action = Action::Change(Change::Add, ty);
    acts(alloc, out, place, action, places, to, temps)
}

// A number is added to an atomic one, or taken away; the old one comes to `t`.
fn summing(
    alloc: Global,
    out: &mut Vec<Node>,
    place: u32,
    away: bool,
    args: &[Expr],
    t: u32,
) -> Result<(), NoMemory>
    ensures { OnOk result ((rest : Nodes) → followed out.new.items rest ≡ followed out.old.items (forms.change_nodes place away (forms.changed_number (exprs_of (map expr_view args.now))) (forms.at_temp t) (suc t) (Some t) rest)) }
{
    let ty = changed_number(args);
    let u = after(t)?;
    change_nodes(alloc, out, place, away, ty, at_temp(t), u, Some(t))
}

// An atomic number is exchanged; the old one comes to `t`.
fn exchanging(
    alloc: Global,
    out: &mut Vec<Node>,
    place: u32,
    args: &[Expr],
    t: u32,
) -> Result<(), NoMemory>
    ensures { OnOk result ((rest : Nodes) → followed out.new.items rest ≡ followed out.old.items (forms.lib_nodes place atomic_swap (exprs_of (map expr_view args.now)) t rest)) }
{
    let action = Action::Change(Change::Swap, changed_number(args));
    let u = after(t)?;
    place_nodes(alloc, out, place, action, t, Some(t), u)
}

// An atomic number is compared with the one at `t` + 1, and exchanged where they are equal.
fn comparing(
    alloc: Global,
    out: &mut Vec<Node>,
    place: u32,
    args: &[Expr],
    t: u32,
) -> Result<(), NoMemory>
    ensures { OnOk result ((rest : Nodes) → followed out.new.items rest ≡ followed out.old.items (forms.lib_nodes place atomic_compare (exprs_of (map expr_view args.now)) t rest)) }
{
    let action = Action::Compare(changed_number(args));
    let u = after(t)?;
    let places = vec![in alloc; at_temp(t), at_temp(u)]?;
    let temps = vec![in alloc; after(u)?]?;
    acts(alloc, out, place, action, places, Some(t), temps)
}

// A number is stored in an atomic object.
fn storing(
    alloc: Global,
    out: &mut Vec<Node>,
    place: u32,
    args: &[Expr],
    t: u32,
) -> Result<(), NoMemory>
    ensures { OnOk result ((rest : Nodes) → followed out.new.items rest ≡ followed out.old.items (forms.lib_nodes place atomic_store (exprs_of (map expr_view args.now)) t rest)) }
{
    let action = Action::Store(Access::Number(changed_number(args)));
    let u = after(t)?;
    place_nodes(alloc, out, place, action, t, None, u)
}

// memcpy of the bytes at `t` + 1 to `t`, so many as `t` + 2 says.
fn copying(alloc: Global, out: &mut Vec<Node>, place: u32, t: u32) -> Result<(), NoMemory>
    ensures { OnOk result ((rest : Nodes) → followed out.new.items rest ≡ followed out.old.items (forms.acts place (copy_bytes 1 false) (forms.at_temp t ∷ forms.at_temp (suc t) ∷ []) None (suc (suc t) ∷ []) rest)) }
{
    let u = after(t)?;
    let places = vec![in alloc; at_temp(t), at_temp(u)]?;
    let temps = vec![in alloc; after(u)?]?;
    let action = Action::Copy {
        align: 1,
        same: false,
    };
    acts(alloc, out, place, action, places, None, temps)
}

/// A number or a pointer of this type, which is in `t`, is stored at a place.
pub fn stores(
    alloc: Global,
    out: &mut Vec<Node>,
    place: u32,
    ty: &CType,
    at: Place,
    t: u32,
) -> Result<(), NoMemory>
    ensures { OnOk result ((rest : Nodes) → followed out.new.items rest ≡ followed out.old.items (forms.acts place (store (access_of_type (type_view ty.now))) (place_view at ∷ []) None (t ∷ []) rest)) }
{
    let places = vec![in alloc; at]?;
    let temps = vec![in alloc; t]?;
    let action = Action::Store(access_of_type(ty));
    acts(alloc, out, place, action, places, None, temps)
}

/// The value in `t` is a local's first one.
pub fn initialises(
    alloc: Global,
    out: &mut Vec<Node>,
    place: u32,
    home: Option<u32>,
    number: u32,
    t: u32,
    ty: &CType,
) -> Result<(), NoMemory>
    ensures { OnOk result ((rest : Nodes) → followed out.new.items rest ≡ followed out.old.items (forms.initialises place home number t (type_view ty.now) rest)) }
{
    match home {
        None => sets(out, place, number, Calc::Copy(t)),
        Some(object) => {
            sets(out, place, number, Calc::Object(object))?;
            stores(alloc, out, place, ty, at_temp(number), t)
        }
    }
}

/// A struct is copied between two places; the register `w` takes its size.
pub fn struct_nodes(
    alloc: Global,
    out: &mut Vec<Node>,
    place: u32,
    structs: &[Layout],
    ty: &CType,
    to: Place,
    from: Place,
    w: u32,
) -> Result<(), NoMemory>
    ensures { OnOk result ((rest : Nodes) → followed out.new.items rest ≡ followed out.old.items (sized_copy (map layout_view structs.now) place (type_view ty.now) (place_view to) (place_view from) w rest)) }
{
    sets_long(out, place, w, size_in(ty, structs)?)?;
    let places = vec![in alloc; to, from]?;
    let temps = vec![in alloc; w]?;
    let action = Action::Copy {
        align: align_in(ty, structs),
        same: true,
    };
    acts(alloc, out, place, action, places, None, temps)
}

fn moves(op: Op, p: u32, n: u32, scale: u32) -> Calc
    ensures { calc_view result ≡ forms.moves op p n scale }
{
    match op {
        Op::Sub => Calc::PtrSub(p, n, scale),
        _ => Calc::PtrAdd(p, n, scale),
    }
}

// `a op b` of two numbers, of which `a` has the type `ty` and `b` the type `by`.
fn number_update(
    out: &mut Vec<Node>,
    place: u32,
    op: Op,
    ty: IntType,
    by: IntType,
    x: u32,
    y: u32,
    to: u32,
) -> Result<(), NoMemory>
    ensures { OnOk result ((rest : Nodes) → followed out.new.items rest ≡ followed out.old.items (forms.number_update place op ty by (operand_types op ty by) x y to rest)) }
{
    let (left, right) = operand_types(op, ty, by);
    becomes(out, place, ty, left, x)?;
    becomes(out, place, by, right, y)?;
    sets(out, place, to, Calc::Apply(op, left, x, y))?;
    becomes(out, place, left, ty, to)
}

/// `a op b` of the registers `x` and `y` comes to `to`, converted to the type of `a`.
pub fn computes(
    out: &mut Vec<Node>,
    structs: &[Layout],
    place: u32,
    op: Op,
    a: &CType,
    b: &CType,
    x: u32,
    y: u32,
    to: u32,
) -> Result<(), NoMemory>
    ensures { OnOk result ((rest : Nodes) → followed out.new.items rest ≡ followed out.old.items (forms.computes (map layout_view structs.now) place op (type_view a.now) (type_view b.now) x y to rest)) }
{
    match a {
        CType::Int(ty) => number_update(out, place, op, *ty, number_type(b), x, y, to),
        _ => {
            let calc = moves(op, x, y, element_size(a, structs)?);
            sets(out, place, to, calc)
        }
    }
}
