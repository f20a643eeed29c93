//! Laws of hoisting, as contracts of functions that do nothing.

ghost use Rattle.hoist_pass.specs.inner.Hoist.{AllAtOnce};

/// One walk for all registers makes what one register's turn after the other makes.
pub fn registers_go_at_once()
    ensures { AllAtOnce }
{}
