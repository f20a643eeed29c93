//! What is so of the text's journals, as the contract of a function that does nothing.

ghost use Rattle.headline_example.specs.Room.{JournalsHaveRoom};

/// Under the default settings no journal of the text's code is ever full, no call of it ever lacks room on the stack, and its malloc gets
/// an object.
pub fn journals_have_room()
    ensures { JournalsHaveRoom }
{
    pin_flow::laws::bases_have_own_slots();
}
