//! Whether each alignment of a program is 1, 2, 4 or 8.

ghost use Rattle.std.specs.Prelude.{◌≡◌, ◌&&◌, map};
ghost use Rattle.std.specs.List.{list_all};
ghost use Rattle.struct_ir.specs.Views.{action_view, node_view, nodes_view, object_view, global_view, func_view};
ghost use Rattle.struct_ir.specs.WholeViews.{ir_view};
ghost use Rattle.code_file.specs.Conditions.{is_alignment, action_is_aligned, node_is_aligned, are_aligned, func_is_aligned, ir_is_aligned};

use struct_ir::{Action, Ir, IrFunc, IrGlobal, Node, NodeKind, StackObject};

fn is_alignment(bytes: u32) -> bool
    ensures { result ≡ is_alignment bytes }
{
    bytes == 1 || (bytes == 2 || (bytes == 4 || bytes == 8))
}

fn action_is_aligned(action: &Action) -> bool
    ensures { result ≡ action_is_aligned (action_view action.now) }
{
    match action {
        Action::Copy { align, .. } => is_alignment(*align),
        _ => true,
    }
}

fn both(a: bool, b: bool) -> bool
    ensures { result ≡ (a && b) }
{
    a && b
}

#[cycle(aligned)]
fn are_aligned(nodes: &[Node]) -> bool
    ensures { result ≡ are_aligned (nodes_view nodes.now) }
{
    for n in nodes {
        if !node_is_aligned(n) {
            return false;
        }
    }
    true
}

#[cycle(aligned)]
fn node_is_aligned(n: &Node) -> bool
    ensures { result ≡ node_is_aligned (node_view n.now) }
{
    match &n.kind {
        NodeKind::If(_, one, other) => {
            let first = are_aligned(one);
            both(first, are_aligned(other))
        }
        NodeKind::Loop(body, latch) => {
            let first = are_aligned(body);
            both(first, are_aligned(latch))
        }
        NodeKind::Step(s) => action_is_aligned(&s.action),
        _ => true,
    }
}

fn objects_are_aligned(objects: &[StackObject]) -> bool
    ensures { result ≡ list_all (λ o. is_alignment o.align) (map object_view objects.now) }
{
    for object in objects {
        if !is_alignment(u32::from(object.align)) {
            return false;
        }
    }
    true
}

fn globals_are_aligned(globals: &[IrGlobal]) -> bool
    ensures { result ≡ list_all (λ g. is_alignment g.align) (map global_view globals.now) }
{
    for global in globals {
        if !is_alignment(u32::from(global.align)) {
            return false;
        }
    }
    true
}

fn func_is_aligned(f: &IrFunc) -> bool
    ensures { result ≡ func_is_aligned (func_view f.now) }
{
    objects_are_aligned(&f.objects) && are_aligned(&f.nodes)
}

fn funcs_are_aligned(funcs: &[IrFunc]) -> bool
    ensures { result ≡ list_all func_is_aligned (map func_view funcs.now) }
{
    for f in funcs {
        if !func_is_aligned(f) {
            return false;
        }
    }
    true
}

/// Whether the alignments of globals, stack objects and copies are 1, 2, 4 or 8.
pub fn is_aligned(ir: &Ir) -> bool
    ensures { result ≡ ir_is_aligned (ir_view ir.now) }
{
    globals_are_aligned(&ir.globals) && funcs_are_aligned(&ir.funcs)
}
