//! Where safepoints stand around calls and at the ends of loops' steps.

ghost use Rattle.std.specs.Prelude.{◌≡◌, option_map};
ghost use Rattle.struct_ir.specs.Views.{node_view, nodes_view};
ghost use Rattle.pin_checker.specs.Faults.{is_guarded};

use struct_ir::placed::{call_is_placed, ends_in_safepoint};
use struct_ir::{Node, NodeKind};

/// Whether the node, where it is a call, stands between safepoints, and where it is a loop, has a
/// step that ends in one.
pub fn is_guarded(before: Option<&[u32]>, n: &Node, rest: &[Node]) -> bool
    ensures { result ≡ is_guarded (option_map (λ s. s.now) before.entry) (node_view n.now) (nodes_view rest.now) }
{
    match &n.kind {
        NodeKind::Loop(_, step) => ends_in_safepoint(step),
        NodeKind::Call(c) => call_is_placed(before, c, rest),
        _ => true,
    }
}
