//! Nodes that are not valid.

ghost use Rattle.std.specs.Prelude.{◌≡◌, None, option_map};
ghost use Rattle.struct_ir.specs.Views.{node_view, nodes_view};
ghost use Rattle.struct_ir.specs.ValidViews.{scope_view, around_view};
ghost use Rattle.pin_checker.specs.Faults.{is_alone, is_sound};
ghost use Rattle.pin_checker.specs.inner.Reports.{report_invalid, report_invalid_in};

use crate::fault::{Fault, Why, noted};
use crate::guards::is_guarded;
use struct_ir::placed::list_at;
use struct_ir::scope::{Around, Scope};
use struct_ir::valid::{in_body, in_latch, is_node};
use struct_ir::{Node, NodeKind};

fn is_alone(x: &Scope, around: Around, n: &Node) -> bool
    ensures { result ≡ is_alone (scope_view x.now) (around_view around) (node_view n.now) }
{
    match &n.kind {
        NodeKind::If(temp, _, _) => *temp < x.temps,
        NodeKind::Loop(_, _) => true,
        _ => is_node(x, around, n),
    }
}

fn is_sound(x: &Scope, around: Around, before: Option<&[u32]>, n: &Node, rest: &[Node]) -> bool
    ensures { result ≡ is_sound (scope_view x.now) (around_view around) (option_map (λ s. s.now) before.entry) (node_view n.now) (nodes_view rest.now) }
{
    is_alone(x, around, n) && is_guarded(before, n, rest)
}

/// The earlier one of a fault and of the first node of the row that is not valid.
#[cycle(invalids)]
#[tactic(auto, unfolding(crate::specs::inner::Reports::report_invalid))]
pub fn report_invalid(
    x: &Scope,
    around: Around,
    nodes: &[Node],
    best: Option<Fault>,
) -> Option<Fault>
    ensures { result ≡ report_invalid (scope_view x.now) (around_view around) None (nodes_view nodes.now) best }
{
    let mut before: Option<&[u32]> = None;
    let mut found = best;
    for (i, n) in nodes.iter().enumerate() {
        let is_bad = !is_sound(x, around, before, n, &nodes[i + 1..]);
        found = report_invalid_in(x, around, n, noted(is_bad, n.place, Why::BadTemp, found));
        before = list_at(n);
    }
    found
}

#[cycle(invalids)]
#[tactic(auto, unfolding(crate::specs::inner::Reports::report_invalid_in))]
fn report_invalid_in(x: &Scope, around: Around, n: &Node, best: Option<Fault>) -> Option<Fault>
    ensures { result ≡ report_invalid_in (scope_view x.now) (around_view around) (node_view n.now) best }
{
    match &n.kind {
        NodeKind::If(_, one, other) => {
            let first = report_invalid(x, around, one, best);
            report_invalid(x, around, other, first)
        }
        NodeKind::Loop(body, step) => {
            let first = report_invalid(x, in_body(), body, best);
            report_invalid(x, in_latch(), step, first)
        }
        _ => best,
    }
}
