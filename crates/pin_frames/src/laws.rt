//! The law of placing, as the contract of a function that does nothing.

ghost use Rattle.pin_frames.specs.inner.Place.{EachIsPlaced, PlacingIsRight};

/// Placed code has exact lists and its safepoints, is the input once erased, and of covered code it
/// is safe for moves.
pub fn placing_is_right()
    ensures right { PlacingIsRight }
    ensures each { EachIsPlaced }
{}
