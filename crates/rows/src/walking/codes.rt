//! Codes that look random: rows of Looks, settings, safepoints and reads, with branches, and with loops that may be left.

use ak_words::NoMemory;
use block_store::Access;
use smallvec::SmallVec;
use std::alloc::Global;
use struct_ir::{Action, Calc, Node, NodeKind, Place, StepNode};

/// Numbers that look random, from a seed, and the place of the node before.
#[derive(Drop)]
pub struct Maker {
    state: u64,
    place: u32,
}

impl Maker {
    /// The numbers of a seed.
    pub fn new(seed: u64) -> Maker {
        Maker {
            state: seed,
            place: 0,
        }
    }

    fn roll(&mut self) -> u8 {
        self.state = self
            .state
            .wrapping_mul(6364136223846793005)
            .wrapping_add(1442695040888963407);
        let [.., high] = self.state.to_le_bytes();
        high
    }

    // 0 or 1.
    fn number(&mut self) -> u32 {
        if self.roll() < 128 { 0 } else { 1 }
    }

    fn put(&mut self, row: &mut Vec<Node>, kind: NodeKind) -> Result<(), NoMemory> {
        self.place = self.place.wrapping_add(1);
        let place = self.place;
        row.push(Node { place, kind })?;
        Ok(())
    }

    fn put_safepoint(&mut self, alloc: Global, row: &mut Vec<Node>) -> Result<(), NoMemory> {
        let mut slots = Vec::new(alloc);
        for slot in 0..2 {
            if self.roll() < 170 {
                slots.push(slot)?;
            }
        }
        self.put(row, NodeKind::Safepoint(slots))
    }

    fn put_read(&mut self, alloc: Global, row: &mut Vec<Node>) -> Result<(), NoMemory> {
        let access = Place {
            base: self.number(),
            index: None,
            scale: 1,
            offset: 0,
            slot: Some(self.number()),
        };
        let places = SmallVec::from_slice(alloc, &[access])?;
        let step = StepNode {
            action: Action::Load(Access::Pointer),
            places,
            to: Some(2),
            temps: SmallVec::new(alloc),
            slots: SmallVec::new(alloc),
        };
        self.put(row, NodeKind::Step(Box::new(alloc, step)?))
    }

    fn put_act(&mut self, alloc: Global, row: &mut Vec<Node>) -> Result<(), NoMemory> {
        let roll = self.roll();
        let (one, other) = (self.number(), self.number());
        if roll < 90 {
            self.put(row, NodeKind::Look(one, other))
        } else if roll < 120 {
            self.put(row, NodeKind::Set(one, Calc::Null))
        } else if roll < 170 {
            self.put_safepoint(alloc, row)
        } else {
            self.put_read(alloc, row)
        }
    }

    fn put_acts(&mut self, alloc: Global, row: &mut Vec<Node>) -> Result<(), NoMemory> {
        for _ in 0..self.roll() / 86 {
            self.put_act(alloc, row)?;
        }
        Ok(())
    }

    // Acts, and maybe a way out of the loop around or of the call.
    fn put_branch(
        &mut self,
        alloc: Global,
        row: &mut Vec<Node>,
        in_loop: bool,
    ) -> Result<(), NoMemory> {
        self.put_acts(alloc, row)?;
        let roll = self.roll();
        if in_loop && roll < 80 {
            self.put(row, NodeKind::Break)
        } else if in_loop && roll < 130 {
            self.put(row, NodeKind::Next)
        } else if roll < 150 {
            self.put(row, NodeKind::Ret(None))
        } else {
            Ok(())
        }
    }

    fn put_fork(
        &mut self,
        alloc: Global,
        row: &mut Vec<Node>,
        in_loop: bool,
    ) -> Result<(), NoMemory> {
        let mut one = Vec::new(alloc);
        self.put_branch(alloc, &mut one, in_loop)?;
        let mut other = Vec::new(alloc);
        self.put_branch(alloc, &mut other, in_loop)?;
        self.put(row, NodeKind::If(2, one, other))
    }

    // A loop whose body may be left, and whose step ends in a safepoint.
    fn put_loop(&mut self, alloc: Global, row: &mut Vec<Node>) -> Result<(), NoMemory> {
        let mut body = Vec::new(alloc);
        self.put_acts(alloc, &mut body)?;
        self.put_fork(alloc, &mut body, true)?;
        self.put_act(alloc, &mut body)?;
        let mut step = Vec::new(alloc);
        self.put_acts(alloc, &mut step)?;
        self.put_safepoint(alloc, &mut step)?;
        self.put(row, NodeKind::Loop(body, step))
    }

    /// A code, of acts with up to two loops or branches between them.
    pub fn code(&mut self, alloc: Global, row: &mut Vec<Node>) -> Result<(), NoMemory> {
        self.place = 0;
        self.put_acts(alloc, row)?;
        for _ in 0..2 {
            let roll = self.roll();
            if roll < 100 {
                self.put_loop(alloc, row)?;
            } else if roll < 180 {
                self.put_fork(alloc, row, false)?;
            }
            self.put_act(alloc, row)?;
        }
        Ok(())
    }
}
