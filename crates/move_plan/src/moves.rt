ghost use Rattle.std.specs.Prelude.{◌≡◌, ◌<◌, ◌≤◌, [], ◌∷◌, ◌++◌, length, slice_get, IfOk};
ghost use Rattle.move_plan.specs.inner.Spans.{origin, target, origins_of, targets_of, AreSorted};

use crate::places::put_in_order;
use ak_words::NoMemory;
use std::alloc::Global;
use std::marker::Model;
use sub_heaps::{Move, Object};

/// Moves in the order in which they are to be made.
#[derive(Debug, Drop)]
pub struct Plan {
    room: u32,
    moves: Vec<Move>,
    // The first byte of the object of each move, in order of place; its owner is the move's turn.
    origins: Vec<Object>,
    // The bytes to which each move goes, the same way.
    targets: Vec<Object>,
}

// Clauses see the list, and how many moves there may be.
impl Model for Plan {
    ghost use Rattle.std.specs.Vec.{vec_capacity};
    ghost use Rattle.move_plan.specs.Holding.{MoveList};
    ghost use Rattle.move_plan.specs.inner.Spans.{IsKept};

    ghost Value = { MoveList };

    ghost view = { λ p. record { room = p.room; moves = p.moves.items } };

    ghost invariant = { λ p. IsKept p.room p.moves.items p.origins.items p.targets.items (vec_capacity p.moves) (vec_capacity p.origins) (vec_capacity p.targets) };
}

impl Plan {
    /// Makes a plan without moves, and takes the memory for `n` of them.
    pub fn with_room(alloc: Global, n: u32) -> Result<Plan, NoMemory>
        ensures { IfOk result (λ p. p ≡ record { room = n; moves = [] }) }
    {
        let moves = Vec::with_capacity(alloc, n as usize)?;
        let origins = Vec::with_capacity(alloc, n as usize)?;
        let targets = Vec::with_capacity(alloc, n as usize)?;
        Ok(Plan {
            room: n,
            moves,
            origins,
            targets,
        })
    }

    /// How many moves there are.
    pub fn len(&self) -> u32
        ensures number { result ≡ length self.now.moves }
        ensures within { length self.now.moves ≤ self.now.room }
    {
        self.moves.len() as u32
    }

    /// The move at the index, if there is one.
    pub fn get(&self, i: u32) -> Option<Move>
        ensures { result ≡ slice_get self.now.moves i }
    {
        self.moves.get(i as usize).copied()
    }

    /// The moves as a slice.
    pub fn moves(&self) -> &[Move]
        ensures { result.now ≡ self.now.moves }
    {
        &self.moves
    }

    // Where the moves start from, as a slice in order of place.
    pub(crate) fn origins(&self) -> &[Object]
        ensures origins { result.now ≡ origins_of self.now.moves }
        ensures sorted { AreSorted 0 result.now }
    {
        &self.origins
    }

    // Where the moves go, as a slice in order of place.
    pub(crate) fn targets(&self) -> &[Object]
        ensures { result.now ≡ targets_of self.now.moves }
    {
        &self.targets
    }

    /// Puts a move behind the others. Moves whose places rise are put there at once; where places fall, what
    /// stands above them is shifted.
    pub fn push(&mut self, m: Move)
        requires { length self.old.moves < self.old.room }
        ensures { self.new ≡ record self.old { moves = self.old.moves ++ m ∷ [] } }
    {
        let turn = self.moves.len() as u32;
        put_in_order(&mut self.origins, origin(turn, m));
        put_in_order(&mut self.targets, target(turn, m));
        self.moves.push_reserved(m);
    }

    /// Takes all moves away.
    pub fn clear(&mut self)
        ensures { self.new ≡ record self.old { moves = [] } }
    {
        self.moves.clear();
        self.origins.clear();
        self.targets.clear();
    }
}

// The first byte of the object that the move is of.
fn origin(turn: u32, m: Move) -> Object
    ensures { result ≡ origin turn m }
{
    Object {
        at: m.from,
        size: 1,
        owner: turn,
    }
}

// The bytes to which the move goes.
fn target(turn: u32, m: Move) -> Object
    ensures { result ≡ target turn m }
{
    Object {
        at: m.to,
        size: m.size,
        owner: turn,
    }
}
