//! What linear code tells of itself.

ghost use Rattle.std.specs.Prelude.{◌≡◌, min, true};
ghost use Rattle.struct_ir.specs.Instrs.{instr_count};
ghost use Rattle.struct_ir.specs.Lawful.{AllLawful};
ghost use Rattle.struct_ir.specs.LinearViews.{code_view};
ghost use Rattle.struct_ir.specs.ValidCode.{is_valid_code};

use crate::linear::Code;

impl Code {
    /// How many instructions the functions have, or the greatest number where there are more.
    pub fn count(&self) -> u64
        ensures { result ≡ min (instr_count (code_view self.now).funcs) u64.MAX }
    {
        let mut sum: u64 = 0;
        for f in &self.funcs {
            sum = sum.saturating_add(f.instrs.len() as u64);
        }
        sum
    }

    /// Each function's instructions are lawful: what the type keeps, as a fact.
    pub fn keeps_lawful(&self)
        ensures { AllLawful (code_view self.now).funcs }
    {}

    /// The numbers of each instruction are in range: what the type keeps, as a fact.
    pub fn keeps_valid(&self)
        ensures { is_valid_code (code_view self.now) ≡ true }
    {}
}
