//! Code that passed the check.

ghost use Rattle.std.specs.Prelude.{◌≡◌, None};
ghost use Rattle.struct_ir.specs.WholeViews.{ir_view};
ghost use Rattle.pin_checker.specs.inner.Reports.{first_fault};

use struct_ir::Ir;

/// Code that is safe for moves: by its type nothing in it fails.
#[derive(Drop)]
pub struct Checked {
    pub(crate) ir: Ir,
    ghost nothing_fails: { first_fault (ir_view ir) ≡ None },
}
