//! Writing nodes. A call writes one level, of which there are at most as many as are given.

ghost use Rattle.std.specs.Prelude.{◌≡◌, ◌&&◌, true, OnOk};
ghost use Rattle.struct_ir.specs.Views.{calc_view, call_view, node_view, nodes_view};
ghost use Rattle.formats.specs.Formats.{◌▸◌, u32};
ghost use Rattle.code_file.specs.Calcs as calcs;
ghost use Rattle.code_file.specs.Files as formats;
ghost use Rattle.code_file.specs.Files.{call_parts, make_call, node_number, node_fields, node_parts, node, nodes};
ghost use Rattle.code_file.specs.Calls.{node_bare, bare};
ghost use Rattle.code_save.specs.inner.Fits.{option_fits, node_fits, fits};
ghost use Rattle.code_save.specs.inner.Written.{Wrote};

use crate::actions::{put_numbers, put_step};
use crate::calcs::{put_calc, put_two};
use crate::numbers::{put_count, put_option, put_u32};
use crate::output::Output;
use ak_words::NoMemory;
use struct_ir::code::{Calc, CallNode, Node, NodeKind};

/// A call, without its list.
fn put_call(out: &mut Output, call: &CallNode) -> Result<(), NoMemory>
    ensures { OnOk result (Wrote formats.call (make_call (call_parts (call_view call.now))) (option_fits (call_view call.now).to) out.old out.new) }
{
    put_option(out, call.to)?;
    put_u32(out, call.function)?;
    put_numbers(out, &call.temps)
}

/// A register and what it is set to.
fn put_set(out: &mut Output, to: u32, calc: &Calc) -> Result<(), NoMemory>
    ensures { OnOk result (Wrote (u32 ▸ calcs.calc) (to, calc_view calc.now) true out.old out.new) }
{
    put_u32(out, to)?;
    put_calc(out, calc)
}

/// The tag of a node.
fn tag_of(n: &Node) -> u8
    ensures { result ≡ node_number (node_parts (node_bare (node_view n.now))).1.0 }
{
    match &n.kind {
        NodeKind::Set(_, _) => 0,
        NodeKind::If(_, _, _) => 1,
        NodeKind::Loop(_, _) => 2,
        NodeKind::Break => 3,
        NodeKind::Next => 4,
        NodeKind::Call(_) => 5,
        NodeKind::Ret(_) => 6,
        NodeKind::Step(_) => 7,
        NodeKind::Look(_, _) => 8,
        NodeKind::Safepoint(_) => 9,
        NodeKind::Begin(_) => 10,
        NodeKind::End(_) => 11,
    }
}

/// A row of nodes, nested at most so deep.
#[cycle(puts)]
pub fn put_nodes(out: &mut Output, levels: u32, all: &[Node]) -> Result<(), NoMemory>
    ensures { OnOk result (Wrote (nodes levels) (bare (nodes_view all.now)) (fits levels (nodes_view all.now)) out.old out.new) }
{
    if levels == 0 {
        return out.put(&[0, 0, 0, 0]);
    }
    put_count(out, all.len())?;
    for n in all {
        put_node(out, levels - 1, n)?;
    }
    Ok(())
}

#[cycle(puts)]
fn put_node(out: &mut Output, levels: u32, n: &Node) -> Result<(), NoMemory>
    ensures { OnOk result (Wrote (node (nodes levels)) (node_bare (node_view n.now)) (node_fits levels (node_view n.now)) out.old out.new) }
{
    put_u32(out, n.place)?;
    out.put(&[tag_of(n)])?;
    put_fields(out, levels, n)
}

/// What stands behind the tag.
#[cycle(puts)]
fn put_fields(out: &mut Output, levels: u32, n: &Node) -> Result<(), NoMemory>
    ensures { OnOk result (Wrote (node_fields (nodes levels) (node_parts (node_bare (node_view n.now))).1.0) (node_parts (node_bare (node_view n.now))).1.1 (node_fits levels (node_view n.now)) out.old out.new) }
{
    match &n.kind {
        NodeKind::Set(to, calc) => put_set(out, *to, calc),
        NodeKind::If(temp, one, other) => put_if(out, levels, *temp, one, other),
        NodeKind::Loop(body, latch) => put_loop(out, levels, body, latch),
        NodeKind::Break => Ok(()),
        NodeKind::Next => Ok(()),
        NodeKind::Call(call) => put_call(out, call),
        NodeKind::Ret(temp) => put_option(out, *temp),
        NodeKind::Step(step) => put_step(out, step),
        NodeKind::Look(slot, base) => put_two(out, *slot, *base),
        NodeKind::Safepoint(slots) => put_numbers(out, slots),
        NodeKind::Begin(object) => put_u32(out, *object),
        NodeKind::End(object) => put_u32(out, *object),
    }
}

#[cycle(puts)]
fn put_if(
    out: &mut Output,
    levels: u32,
    temp: u32,
    one: &[Node],
    other: &[Node],
) -> Result<(), NoMemory>
    ensures { OnOk result (Wrote (u32 ▸ nodes levels ▸ nodes levels) (temp, (bare (nodes_view one.now), bare (nodes_view other.now))) (fits levels (nodes_view one.now) && fits levels (nodes_view other.now)) out.old out.new) }
{
    put_u32(out, temp)?;
    put_nodes(out, levels, one)?;
    put_nodes(out, levels, other)
}

#[cycle(puts)]
fn put_loop(out: &mut Output, levels: u32, body: &[Node], latch: &[Node]) -> Result<(), NoMemory>
    ensures { OnOk result (Wrote (nodes levels ▸ nodes levels) (bare (nodes_view body.now), bare (nodes_view latch.now)) (fits levels (nodes_view body.now) && fits levels (nodes_view latch.now)) out.old out.new) }
{
    put_nodes(out, levels, body)?;
    put_nodes(out, levels, latch)
}
