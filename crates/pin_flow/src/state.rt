//! All paths to a point, for a yes or no that acts change.

ghost use Rattle.std.specs.Prelude.{◌≡◌};
ghost use Rattle.pin_flow.specs.Marks.{join, at, either, in_turn, turned, end_state};
ghost use Rattle.pin_flow.specs.Views.{state_view, ways_view};

/// What the paths to a point say.
#[derive(Clone, Copy, Debug, PartialEq, Eq)]
pub enum State {
    /// No path comes there.
    Unreached,
    /// Each path says yes.
    Good,
    /// Some path says no.
    Bad,
}

/// Where control leaves a row of nodes.
#[derive(Clone, Copy, Debug, PartialEq, Eq)]
pub struct Ways {
    /// At its end.
    pub on: State,
    /// By a Break.
    pub broken: State,
    /// By a Next.
    pub next: State,
}

/// All paths that come by one way or by another.
pub fn joined(a: State, b: State) -> State
    ensures { state_view result ≡ join (state_view a) (state_view b) }
{
    match (a, b) {
        (State::Unreached, u) => u,
        (State::Good, State::Bad) => State::Bad,
        (State::Good, _) => State::Good,
        (State::Bad, _) => State::Bad,
    }
}

/// Control leaves at the end alone.
pub fn all_on(on: State) -> Ways
    ensures { ways_view result ≡ at (state_view on) }
{
    Ways {
        on,
        broken: State::Unreached,
        next: State::Unreached,
    }
}

/// Control goes through the one row or through the other.
pub fn both_ways(a: Ways, b: Ways) -> Ways
    ensures { ways_view result ≡ either (ways_view a) (ways_view b) }
{
    Ways {
        on: joined(a.on, b.on),
        broken: joined(a.broken, b.broken),
        next: joined(a.next, b.next),
    }
}

/// Control goes through the one row and then through the other.
pub fn one_behind(a: Ways, b: Ways) -> Ways
    ensures { ways_view result ≡ in_turn (ways_view a) (ways_view b) }
{
    Ways {
        on: b.on,
        broken: joined(a.broken, b.broken),
        next: joined(a.next, b.next),
    }
}

/// Control goes through the row and then on to this state.
#[tactic(auto, using(crate::proofs::FlowRows::on_from))]
pub fn on_to(a: Ways, on: State) -> Ways
    ensures { ways_view result ≡ in_turn (ways_view a) (at (state_view on)) }
{
    Ways {
        on,
        broken: a.broken,
        next: a.next,
    }
}

/// Control goes through a loop's body and then through its step.
pub fn around(a: Ways, b: Ways) -> Ways
    ensures { ways_view result ≡ turned (ways_view a) (ways_view b) }
{
    Ways {
        on: joined(b.on, b.next),
        broken: joined(a.broken, b.broken),
        next: State::Unreached,
    }
}

/// The end of a body, or of a step.
pub fn end_of(a: Ways) -> State
    ensures { state_view result ≡ end_state (ways_view a) }
{
    joined(a.on, a.next)
}
