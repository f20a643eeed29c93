//! One more instruction, in code that is written from its end.

ghost use Rattle.std.specs.Prelude.{◌≡◌, ◌≤◌, ◌+◌, [], ◌∷◌, ◌++◌, OnOk, IfOk, map};
ghost use Rattle.struct_ir.specs.InstrViews.{instr_kind_view, instr_view};

use ak_words::NoMemory;
use struct_ir::{Instr, InstrKind};

// Right before the index `end`; and its own index.
pub(crate) fn put_before(
    code: &mut Vec<Instr>,
    end: usize,
    place: u32,
    kind: InstrKind,
) -> Result<usize, NoMemory>
    requires { 1 ≤ end }
    ensures index { IfOk result (λ at. at + 1 ≡ end) }
    ensures code { OnOk result (map instr_view code.new.items ≡ map instr_view code.old.items ++ instr_kind_view place kind ∷ []) }
{
    put(code, place, kind)?;
    Ok(end - 1)
}

pub(crate) fn put(code: &mut Vec<Instr>, place: u32, kind: InstrKind) -> Result<(), NoMemory>
    ensures { OnOk result (map instr_view code.new.items ≡ map instr_view code.old.items ++ instr_kind_view place kind ∷ []) }
{
    code.push(Instr { place, kind })?;
    Ok(())
}
