//! What a step tells of itself.

ghost use Rattle.std.specs.Prelude.{◌≡◌};
ghost use Rattle.struct_ir.specs.Nodes.{may_wait};
ghost use Rattle.struct_ir.specs.Views.{action_view};

use crate::code::Action;

impl Action {
    /// Whether the action may have to wait: an allocation for room, a lock for its mutex, a join for
    /// its thread.
    pub fn may_wait(&self) -> bool
        ensures { result ≡ may_wait (action_view self.now) }
    {
        match self {
            Action::Malloc | Action::Calloc | Action::Realloc | Action::Lock | Action::Join => true,
            _ => false,
        }
    }
}
