//! What sets a register to a number.

ghost use Rattle.std.specs.Prelude.{◌≡◌};
ghost use Rattle.struct_ir.specs.Nodes.{constant};
ghost use Rattle.struct_ir.specs.Views.{calc_view};

use crate::code::Calc;
use ak_words::Num;

impl Calc {
    /// What sets a register to this number.
    pub fn number(n: Num) -> Calc
        ensures { calc_view result ≡ constant n.ty n.value }
    {
        Calc::Num(n.ty, n.to_bits())
    }
}
