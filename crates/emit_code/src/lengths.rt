//! How many instructions nodes take.

ghost use Rattle.std.specs.Prelude.{◌≡◌, IfSome};
ghost use Rattle.struct_ir.specs.Views.{node_view, nodes_view};
ghost use Rattle.emit_code.specs.inner.Layout.{long, node_long};

use struct_ir::{Node, NodeKind};

// How many instructions nodes take, if it can be counted.
#[cycle(longs)]
pub(crate) fn long_of(nodes: &[Node]) -> Option<usize>
    ensures { IfSome result (λ n. n ≡ long (nodes_view nodes.now)) }
{
    let mut sum: usize = 0;
    let mut left = nodes;
    'row: while let [front @ .., node] = left {
        sum = long_of_node(node)?.checked_add(sum)?;
        left = front;
    }
    Some(sum)
}

#[cycle(longs)]
fn long_of_node(node: &Node) -> Option<usize>
    ensures { IfSome result (λ n. n ≡ node_long (node_view node.now)) }
{
    match &node.kind {
        NodeKind::If(_, one, other) => {
            let one = long_of(one)?;
            let other = long_of(other)?;
            one.checked_add(other)?.checked_add(2)
        }
        NodeKind::Loop(body, step) => {
            let body = long_of(body)?;
            let step = long_of(step)?;
            body.checked_add(step)?.checked_add(1)
        }
        NodeKind::Begin(_) => Some(0),
        NodeKind::End(_) => Some(0),
        NodeKind::Set(..) => Some(1),
        NodeKind::Break => Some(1),
        NodeKind::Next => Some(1),
        NodeKind::Call(_) => Some(1),
        NodeKind::Ret(_) => Some(1),
        NodeKind::Step(_) => Some(1),
        NodeKind::Look(..) => Some(1),
        NodeKind::Safepoint(_) => Some(1),
    }
}
