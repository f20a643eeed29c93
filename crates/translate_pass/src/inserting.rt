ghost use Rattle.std.specs.Prelude.{◌≡◌, ◌≤◌, ◌<◌, ◌^◌, length, map, IfOk, OnOk, true};
ghost use Rattle.struct_ir.specs.Nodes.{Nodes, plain, step};
ghost use Rattle.struct_ir.specs.Erased.{ir_erased};
ghost use Rattle.struct_ir.specs.Valid.{is_valid};
ghost use Rattle.struct_ir.specs.Views.{place_view, step_view, node_view, nodes_view, func_view, followed};
ghost use Rattle.struct_ir.specs.WholeViews.{ir_view};
ghost use Rattle.struct_ir.specs.Safe.{EveryFunc};
ghost use Rattle.pin_flow.specs.Funcs.{IsCovered};
ghost use Rattle.pin_flow.specs.Slots.{slot_if, HasOwnSlots};
ghost use Rattle.translate_pass.specs.inner.Insert.{place_through, step_through, with_look, with_looks, places_in, inserted, with_node, func_inserted, ir_inserted};

use ak_words::NoMemory;
use pin_flow::copies::{add, branches, node, rounds};
use pin_flow::programs::copy_ir;
use pin_flow::slots::{bases_of, slot_of};
use smallvec::SmallVec;
use std::alloc::Global;
use struct_ir::{Ir, IrFunc, Node, NodeKind, Place, Places, StepNode};

/// The code with a Look before each access, for its base. Each register that is the base of an
/// access has a slot of its own.
///
/// # Errors
///
/// Only want of memory.
pub fn insert(alloc: Global, ir: &Ir) -> Result<Ir, NoMemory>
    requires valid { is_valid (ir_view ir.now) ≡ true }
    requires bare { ir_erased (ir_view ir.now) ≡ ir_view ir.now }
    ensures valid { IfOk result (λ x. is_valid (ir_view x) ≡ true) }
    ensures erased { IfOk result (λ x. ir_erased (ir_view x) ≡ ir_view ir.now) }
    ensures covered { IfOk result (λ x. EveryFunc IsCovered (ir_view x)) }
    ensures slots { IfOk result (λ x. EveryFunc HasOwnSlots (ir_view x)) }
{
    let own = copy_ir(alloc, ir)?;
    insert_owned(alloc, own)
}

/// The same, of code that nothing needs any more: what stays of it isn't copied.
///
/// # Errors
///
/// Only want of memory.
pub fn insert_owned(alloc: Global, ir: Ir) -> Result<Ir, NoMemory>
    requires valid { is_valid (ir_view ir) ≡ true }
    requires bare { ir_erased (ir_view ir) ≡ ir_view ir }
    ensures valid { IfOk result (λ x. is_valid (ir_view x) ≡ true) }
    ensures erased { IfOk result (λ x. ir_erased (ir_view x) ≡ ir_view ir) }
    ensures covered { IfOk result (λ x. EveryFunc IsCovered (ir_view x)) }
    ensures slots { IfOk result (λ x. EveryFunc HasOwnSlots (ir_view x)) }
{
    insert_all(alloc, ir)
}

fn insert_all(alloc: Global, ir: Ir) -> Result<Ir, NoMemory>
    ensures { IfOk result (λ x. ir_view x ≡ ir_inserted (ir_view ir)) }
{
    let funcs = insert_funcs(alloc, ir.funcs)?;
    Ok(Ir {
        globals: ir.globals,
        literals: ir.literals,
        funcs,
        main: ir.main,
    })
}

fn insert_funcs(alloc: Global, funcs: Vec<IrFunc>) -> Result<Vec<IrFunc>, NoMemory>
    ensures { IfOk result (λ v. map func_view v.items ≡ map func_inserted (map func_view funcs.items)) }
{
    let mut out = Vec::with_capacity(alloc, funcs.len())?;
    for f in funcs {
        out.push(insert_func(alloc, f)?)?;
    }
    Ok(out)
}

fn insert_func(alloc: Global, f: IrFunc) -> Result<IrFunc, NoMemory>
    ensures { IfOk result (λ x. func_view x ≡ func_inserted (func_view f)) }
{
    let temps = f.temps;
    let bases = bases_of(alloc, &f)?;
    let nodes = insert_row(alloc, &bases, f.nodes)?;
    Ok(IrFunc {
        params: f.params,
        temps,
        slots: bases.len() as u32,
        objects: f.objects,
        nodes,
    })
}

// How many accesses a node makes itself.
fn accesses(n: &Node) -> usize
    ensures { result ≡ length (places_in (node_view n.now)) }
{
    match &n.kind {
        NodeKind::Step(s) => s.places.len(),
        _ => 0,
    }
}

// Room for the nodes and a Look for each of their accesses.
fn room(rows: &[Node]) -> usize
    ensures { length rows.now ≤ result }
{
    let mut all = rows.len();
    for n in rows {
        all = all.saturating_add(accesses(n));
    }
    all
}

#[cycle(inserts)]
fn insert_row(alloc: Global, bases: &[u32], rows: Vec<Node>) -> Result<Vec<Node>, NoMemory>
    requires { length bases.now < 2 ^ 32 }
    ensures { IfOk result (λ v. nodes_view v.items ≡ inserted (slot_if bases.now) (nodes_view rows.items)) }
{
    let mut out = Vec::with_capacity(alloc, room(&rows))?;
    for n in rows {
        insert_node(alloc, bases, n, &mut out)?;
    }
    Ok(out)
}

#[cycle(inserts)]
fn insert_node(alloc: Global, bases: &[u32], n: Node, out: &mut Vec<Node>) -> Result<(), NoMemory>
    requires { length bases.now < 2 ^ 32 }
    ensures { OnOk result ((rest : Nodes) → followed out.new.items rest ≡ followed out.old.items (with_node (slot_if bases.now) (node_view n) rest)) }
{
    let Node { place, kind } = n;
    match kind {
        NodeKind::If(temp, one, other) => {
            let yes = insert_row(alloc, bases, one)?;
            let no = insert_row(alloc, bases, other)?;
            add(out, branches(place, temp, yes, no))
        }
        NodeKind::Loop(body, step) => {
            let first = insert_row(alloc, bases, body)?;
            let second = insert_row(alloc, bases, step)?;
            add(out, rounds(place, first, second))
        }
        NodeKind::Step(s) => add_step(alloc, bases, place, Box::into_inner(s), out),
        leaf => add(out, node(place, leaf)),
    }
}

// A step, behind the Looks for its accesses.
fn add_step(
    alloc: Global,
    bases: &[u32],
    place: u32,
    s: StepNode,
    out: &mut Vec<Node>,
) -> Result<(), NoMemory>
    requires { length bases.now < 2 ^ 32 }
    ensures { OnOk result ((rest : Nodes) → followed out.new.items rest ≡ followed out.old.items (with_node (slot_if bases.now) (plain place (step (step_view s))) rest)) }
{
    look_for(bases, place, &s.places, out)?;
    let through = insert_step(alloc, bases, s)?;
    add(out, node(place, NodeKind::Step(Box::new(alloc, through)?)))
}

fn look_for(
    bases: &[u32],
    place: u32,
    places: &[Place],
    out: &mut Vec<Node>,
) -> Result<(), NoMemory>
    requires { length bases.now < 2 ^ 32 }
    ensures { OnOk result ((rest : Nodes) → followed out.new.items rest ≡ followed out.old.items (with_looks (slot_if bases.now) place (map place_view places.now) rest)) }
{
    for a in places {
        add_look(bases, place, a.base, out)?;
    }
    Ok(())
}

fn add_look(bases: &[u32], place: u32, base: u32, out: &mut Vec<Node>) -> Result<(), NoMemory>
    requires { length bases.now < 2 ^ 32 }
    ensures { OnOk result ((rest : Nodes) → followed out.new.items rest ≡ followed out.old.items (with_look (slot_if bases.now base) place base rest)) }
{
    match slot_of(bases, base) {
        Some(slot) => add(out, node(place, NodeKind::Look(slot, base))),
        None => Ok(()),
    }
}

fn insert_place(bases: &[u32], a: &Place) -> Place
    requires { length bases.now < 2 ^ 32 }
    ensures { place_view result ≡ place_through (slot_if bases.now) (place_view a.now) }
{
    Place {
        base: a.base,
        index: a.index,
        scale: a.scale,
        offset: a.offset,
        slot: slot_of(bases, a.base),
    }
}

fn insert_places(alloc: Global, bases: &[u32], places: &[Place]) -> Result<Places, NoMemory>
    requires { length bases.now < 2 ^ 32 }
    ensures { IfOk result (λ v. map place_view v.items ≡ map (place_through (slot_if bases.now)) (map place_view places.now)) }
{
    let mut out = SmallVec::new(alloc);
    for a in places {
        out.push(insert_place(bases, a))?;
    }
    Ok(out)
}

fn insert_step(alloc: Global, bases: &[u32], s: StepNode) -> Result<StepNode, NoMemory>
    requires { length bases.now < 2 ^ 32 }
    ensures { IfOk result (λ x. step_view x ≡ step_through (slot_if bases.now) (step_view s)) }
{
    let places = insert_places(alloc, bases, &s.places)?;
    Ok(StepNode {
        action: s.action,
        places,
        to: s.to,
        temps: s.temps,
        slots: s.slots,
    })
}
