//! Walks along the paths of a code.

use pin_checker::Why;
use struct_ir::{Node, NodeKind, Place};

// What a path says of one slot.
#[derive(Clone, Copy, Debug, PartialEq, Eq)]
struct Slot {
    base: Option<u32>,
    stale: bool,
    lacked: bool,
}

#[derive(Clone, Copy, Debug, PartialEq, Eq)]
enum Exit {
    On,
    Break,
    Next,
    // The call is left, or the path is long enough.
    End,
}

// A path: the ways that its Ifs go, as the digits of a number, the value of the digit before the next
// one, what the path says of the two slots, and the first fault of all paths so far.
#[derive(Drop)]
struct Walk {
    ways: u32,
    span: u32,
    zero: Slot,
    one: Slot,
    first: Option<(u32, u8, Why)>,
}

impl Walk {
    fn slot(&self, number: u32) -> Slot {
        if number == 0 { self.zero } else { self.one }
    }

    fn fails(&mut self, place: u32, rank: u8, why: Why) {
        let is_first = match self.first {
            None => true,
            Some((p, r, _)) => place < p || (place == p && rank < r),
        };
        if is_first {
            self.first = Some((place, rank, why));
        }
    }

    fn access(&mut self, place: u32, access: &Place) {
        let slot = match access.slot {
            None => return,
            Some(number) => self.slot(number),
        };
        match slot.base {
            None => self.fails(place, 1, Why::NoLook),
            Some(base) => {
                if base != access.base {
                    self.fails(place, 0, Why::BadTemp);
                }
                if base == access.base && slot.stale {
                    self.fails(place, 2, Why::StaleLook);
                }
                if slot.lacked {
                    self.fails(place, 3, Why::NotPinned);
                }
            }
        }
    }

    fn act(&mut self, n: &Node) {
        match &n.kind {
            NodeKind::Step(s) => {
                for access in &s.places {
                    self.access(n.place, access);
                }
            }
            NodeKind::Set(to, _) => {
                self.zero = assigned(self.zero, *to);
                self.one = assigned(self.one, *to);
            }
            NodeKind::Safepoint(slots) => {
                self.zero = listed(self.zero, 0, slots);
                self.one = listed(self.one, 1, slots);
            }
            NodeKind::Look(slot, base) => {
                let looked = Slot {
                    base: Some(*base),
                    stale: false,
                    lacked: false,
                };
                if *slot == 0 {
                    self.zero = looked;
                } else {
                    self.one = looked;
                }
            }
            _ => {}
        }
    }

    // The way of the next If, while there are any.
    fn way(&mut self) -> Option<bool> {
        if self.span < 2 {
            return None;
        }
        self.span /= 2;
        Some((self.ways / self.span) % 2 == 1)
    }
}

fn assigned(slot: Slot, to: u32) -> Slot {
    Slot {
        base: slot.base,
        stale: slot.stale || slot.base == Some(to),
        lacked: slot.lacked,
    }
}

fn listed(slot: Slot, number: u32, slots: &[u32]) -> Slot {
    Slot {
        base: slot.base,
        stale: slot.stale,
        lacked: slot.lacked || !slots.iter().any(|s| *s == number),
    }
}

#[cycle(walks)]
fn walk_row(walk: &mut Walk, nodes: &[Node]) -> Exit {
    for n in nodes {
        let exit = walk_node(walk, n);
        if exit != Exit::On {
            return exit;
        }
    }
    Exit::On
}

#[cycle(walks)]
fn walk_node(walk: &mut Walk, n: &Node) -> Exit {
    match &n.kind {
        NodeKind::If(_, one, other) => match walk.way() {
            Some(true) => walk_row(walk, one),
            Some(false) => walk_row(walk, other),
            None => Exit::End,
        },
        NodeKind::Loop(body, step) => {
            for _ in 0..6 {
                match walk_row(walk, body) {
                    Exit::Break => return Exit::On,
                    Exit::End => return Exit::End,
                    Exit::On | Exit::Next => {}
                }
                if walk_row(walk, step) != Exit::On {
                    return Exit::End;
                }
            }
            Exit::End
        }
        NodeKind::Break => Exit::Break,
        NodeKind::Next => Exit::Next,
        NodeKind::Ret(_) => Exit::End,
        _ => {
            walk.act(n);
            Exit::On
        }
    }
}

/// The first fault of all paths that go through at most eight Ifs.
pub fn walked(nodes: &[Node]) -> Option<(u32, Why)> {
    let fresh = Slot {
        base: None,
        stale: false,
        lacked: false,
    };
    let mut first = None;
    let mut ways: u32 = 0;
    for _ in 0..256 {
        let mut walk = Walk {
            ways,
            span: 256,
            zero: fresh,
            one: fresh,
            first,
        };
        let _exit = walk_row(&mut walk, nodes);
        first = walk.first;
        // The digits that the path didn't read change nothing.
        ways = next_ways(ways, walk.span);
        if ways >= 256 {
            break;
        }
    }
    let (place, _, why) = first?;
    Some((place, why))
}

fn next_ways(ways: u32, span: u32) -> u32 {
    if span == 0 {
        return 256;
    }
    ways.wrapping_sub(ways % span).wrapping_add(span)
}
