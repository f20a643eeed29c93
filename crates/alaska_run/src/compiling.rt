//! From a text to code.

ghost use Rattle.std.specs.Prelude.{◌≤◌, length, IfOk};
ghost use Rattle.c_lex.specs.Refusals.{IfRefused};
ghost use Rattle.c_tree.specs.TypedForm.{IsWellFormed};
ghost use Rattle.c_tree.specs.TypedViews.{typed_view};
ghost use Rattle.alaska_run.specs.Reading.{Refuses};
ghost use Rattle.struct_ir.specs.LinearViews.{code_view};
ghost use Rattle.lower_forms.specs.Programs.{lowered};
ghost use Rattle.pin_checker.specs.CheckedViews.{program_in};
ghost use Rattle.compile_passes.specs.Compiled.{IsCompiled};
ghost use Rattle.alaska_run.specs.Built.{IsBuilt};

use crate::read;
use ak_words::NoMemory;
use c_lex::CompileFault;
use c_tree::typed::Typed;
use compile_passes::Compiled;
use ir_lower::lower;
use pin_checker::Checked;
use std::alloc::Global;
use struct_ir::linear::Code;

/// What a text is compiled to.
#[derive(Drop)]
pub struct Built {
    /// Its typed tree.
    pub typed: Typed,
    /// Structured code of it with Looks, safepoints and lists, safe for moves.
    pub checked: Checked,
    /// The machine's code.
    pub code: Code,
}

/// The typed tree of a text of the subset, its checked code, and the machine's code of that.
///
/// # Errors
///
/// The text's refusal, as the reader gives it, and want of memory. Nothing behind the reader
/// refuses a text.
pub fn compile(alloc: Global, text: &[u8]) -> Result<Built, CompileFault>
    requires { length text.now ≤ 1048576 }
    ensures built { IfOk result (λ b. IsBuilt text.now (typed_view b.typed) (program_in b.checked) (code_view b.code)) }
    ensures refused { IfRefused result (λ r. Refuses text.now r) }
{
    c_meaning::laws::turns_go_on();
    c_meaning::laws::runs_go_on();
    lower_forms::laws::lowered_code_is_sound();
    lower_forms::laws::lowered_code_is_whole();
    lower_turns::laws::code_keeps_every_turn();
    let reading = read(alloc, text)?;
    // What follows needs the tree alone.
    drop(reading.tokens);
    match compiled(alloc, &reading.typed) {
        Ok(Compiled { checked, code }) => {
            code.keeps_lawful();
            code.keeps_valid();
            let typed = reading.typed;
            Ok(Built {
                typed,
                checked,
                code,
            })
        }
        Err(NoMemory) => Err(CompileFault::NoMemory),
    }
}

// The code of a typed tree, through all passes.
fn compiled(alloc: Global, typed: &Typed) -> Result<Compiled, NoMemory>
    requires { IsWellFormed (typed_view typed.now) }
    ensures { IfOk result (λ x. IsCompiled (lowered (typed_view typed.now)) (program_in x.checked) (code_view x.code)) }
{
    let ir = lower(alloc, typed)?;
    compile_passes::compile(alloc, ir)
}
