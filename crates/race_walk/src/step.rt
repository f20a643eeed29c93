use race_rules::Touch;

/// A turn of a thread, and what it touched.
#[derive(Drop)]
pub struct Step {
    pub thread: u32,
    pub touches: Vec<Touch>,
}

/// One of the two turns of a race: its number, its thread, and the touch of it that is shown.
#[derive(Clone, Copy, Debug, PartialEq, Eq)]
pub struct Side {
    pub turn: u64,
    pub thread: u32,
    pub touch: Touch,
}

/// The two turns of a race.
#[derive(Clone, Copy, Debug, PartialEq, Eq)]
pub struct Found {
    pub first: Side,
    pub second: Side,
}
