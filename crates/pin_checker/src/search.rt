//! What is looked for along the paths of a function.

ghost use Rattle.std.specs.Prelude.{◌≡◌, map};
ghost use Rattle.struct_ir.specs.Views.{place_view, node_view};
ghost use Rattle.pin_flow.specs.Marks.{state_of};
ghost use Rattle.pin_flow.specs.Views.{mark_view, state_view};
ghost use Rattle.pin_checker.specs.inner.Reports.{has_bare, is_bad, is_good};
ghost use Rattle.pin_checker.specs.inner.SearchViews.{search_view, blames_at, bare_at};

use crate::fault::Why;
use crate::pair::Pair;
use pin_flow::mark::{Mark, lacks};
use pin_flow::seen::uses;
use pin_flow::state::State;
use struct_ir::{Node, NodeKind, Place};

/// Which accesses are to be found.
#[derive(Clone, Copy, Debug, PartialEq, Eq)]
pub enum Search {
    /// Those of the pair where the last Look may be of another register.
    Other(Pair),
    /// Those of the pair where there may be no Look.
    None(Pair),
    /// Those of the pair where the base may have been assigned since.
    Stale(Pair),
    /// Those of the pair where a list may lack the slot.
    Lacking(Pair),
    /// Those without a slot.
    Bare,
}

fn has_bare(places: &[Place]) -> bool
    ensures { result ≡ has_bare (map place_view places.now) }
{
    for a in places {
        if a.slot.is_none() {
            return true;
        }
    }
    false
}

fn is_bare(n: &Node) -> bool
    ensures { result ≡ bare_at (node_view n.now) }
{
    match &n.kind {
        NodeKind::Step(s) => has_bare(&s.places),
        _ => false,
    }
}

fn is_bad(at: State) -> bool
    ensures { result ≡ is_bad (state_view at) }
{
    match at {
        State::Bad => true,
        _ => false,
    }
}

fn is_good(at: State) -> bool
    ensures { result ≡ is_good (state_view at) }
{
    match at {
        State::Good => true,
        _ => false,
    }
}

impl Search {
    /// The mark whose states tell.
    pub fn mark(self) -> Mark
        ensures { mark_view result ≡ (search_view self).mark }
    {
        match self {
            Search::Other(q) => Mark::FilledFor(q.slot, q.base),
            Search::None(q) => Mark::Filled(q.slot),
            Search::Stale(q) => Mark::Fresh(q.slot, q.base),
            Search::Lacking(q) => Mark::Pinned(q.slot, q.base),
            Search::Bare => Mark::Held(0),
        }
    }

    /// The state before the code.
    pub fn start(self) -> State
        ensures { state_view result ≡ state_of (search_view self).start }
    {
        match self {
            Search::Other(_) => State::Good,
            _ => State::Bad,
        }
    }

    /// The reason for which what is found fails.
    pub fn why(self) -> Why
        ensures { result ≡ (search_view self).why }
    {
        match self {
            Search::Other(_) => Why::BadTemp,
            Search::None(_) | Search::Bare => Why::NoLook,
            Search::Stale(_) => Why::StaleLook,
            Search::Lacking(_) => Why::NotPinned,
        }
    }

    /// Whether an access of the node itself is one, in this state.
    pub fn blames(self, n: &Node, at: State) -> bool
        ensures { result ≡ blames_at (search_view self) (node_view n.now) (state_view at) }
    {
        match self {
            Search::Other(q) | Search::None(q) | Search::Stale(q) => {
                uses(q.slot, q.base, n) && is_bad(at)
            }
            Search::Lacking(q) => {
                uses(q.slot, q.base, n) && (is_bad(at) || (lacks(q.slot, n) && is_good(at)))
            }
            Search::Bare => is_bare(n) && (is_bad(at) || is_good(at)),
        }
    }
}
