//! The first node of a function with an access that fails.

ghost use Rattle.std.specs.Prelude.{◌≡◌, None, IfOk};
ghost use Rattle.struct_ir.specs.Views.{nodes_view, func_view};
ghost use Rattle.struct_ir.specs.WholeViews.{ir_view};
ghost use Rattle.pin_checker.specs.inner.Reports.{report_all, report_pair, report_pairs, report_func, first_fault};
ghost use Rattle.pin_checker.specs.inner.SearchViews.{search_view};

use crate::fault::{Fault, earlier_of};
use crate::found::found_in;
use crate::invalid::report_invalid;
use crate::kept::are_kept;
use crate::pair::{Pair, add_pairs};
use crate::search::Search;
use ak_words::NoMemory;
use std::alloc::Global;
use struct_ir::scope::Around;
use struct_ir::valid::scope;
use struct_ir::{Ir, IrFunc, Node};

// The first fault that the search finds from the function's start.
fn first_of(search: Search, nodes: &[Node]) -> Option<Fault>
    ensures { result ≡ report_all (search_view search) (nodes_view nodes.now) None }
{
    found_in(search, nodes, search.start()).first
}

fn report_all(search: Search, nodes: &[Node], best: Option<Fault>) -> Option<Fault>
    ensures { result ≡ report_all (search_view search) (nodes_view nodes.now) best }
{
    earlier_of(best, first_of(search, nodes))
}

fn report_each(nodes: &[Node], q: Pair, best: Option<Fault>) -> Option<Fault>
    ensures { result ≡ report_pair (nodes_view nodes.now) q best }
{
    let other = report_all(Search::Other(q), nodes, best);
    let none = report_all(Search::None(q), nodes, other);
    let stale = report_all(Search::Stale(q), nodes, none);
    report_all(Search::Lacking(q), nodes, stale)
}

// Where the strictest of the four searches finds nothing, the others find nothing.
fn report_pair(nodes: &[Node], q: Pair, best: Option<Fault>) -> Option<Fault>
    ensures { result ≡ report_pair (nodes_view nodes.now) q best }
{
    match first_of(Search::Lacking(q), nodes) {
        None => best,
        Some(_) => report_each(nodes, q, best),
    }
}

// One pair after the other.
fn report_in_turn(nodes: &[Node], pairs: &[Pair], best: Option<Fault>) -> Option<Fault>
    ensures { result ≡ report_pairs (nodes_view nodes.now) pairs.now best }
{
    let mut found = best;
    for q in pairs {
        found = report_pair(nodes, *q, found);
    }
    found
}

// Where each pair is kept no search finds anything.
fn report_pairs(
    alloc: Global,
    f: &IrFunc,
    pairs: &[Pair],
    best: Option<Fault>,
) -> Result<Option<Fault>, NoMemory>
    ensures { IfOk result (λ r. r ≡ report_pairs (nodes_view f.now.nodes.items) pairs.now best) }
{
    if are_kept(alloc, f, pairs)? {
        Ok(best)
    } else {
        Ok(report_in_turn(&f.nodes, pairs, best))
    }
}

fn report_func(
    alloc: Global,
    ir: &Ir,
    f: &IrFunc,
    best: Option<Fault>,
) -> Result<Option<Fault>, NoMemory>
    ensures { IfOk result (λ r. r ≡ report_func (ir_view ir.now) (func_view f.now) best) }
{
    let outside = Around {
        in_loop: false,
        in_body: false,
    };
    let invalid = report_invalid(&scope(ir, f), outside, &f.nodes, best);
    let bare = report_all(Search::Bare, &f.nodes, invalid);
    let mut pairs = Vec::new(alloc);
    add_pairs(&f.nodes, &mut pairs)?;
    report_pairs(alloc, f, &pairs, bare)
}

/// The first node of the program that fails, with its reason.
pub fn first_fault(alloc: Global, ir: &Ir) -> Result<Option<Fault>, NoMemory>
    ensures { IfOk result (λ r. r ≡ first_fault (ir_view ir.now)) }
{
    let mut found = None;
    for f in &ir.funcs {
        found = report_func(alloc, ir, f, found)?;
    }
    Ok(found)
}
