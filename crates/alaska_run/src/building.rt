//! Mode build: the checked code of a text, saved. Nothing runs.

ghost use Rattle.std.specs.Prelude.{◌≡◌, [], IfOk, Some, true};
ghost use Rattle.c_tree.specs.TypedViews.{typed_view};
ghost use Rattle.struct_ir.specs.LinearViews.{code_view};
ghost use Rattle.pin_checker.specs.CheckedViews.{program_in};
ghost use Rattle.code_save.specs.Saves.{can_be_saved};
ghost use Rattle.flat_rules.specs.declared.settings.Mode.TheVariants.{Build};
ghost use Rattle.alaska_run.specs.Built.{IsBuilt};
ghost use Rattle.alaska_run.specs.Modes.{IsSavedAs};
ghost use Rattle.alaska_run.specs.Sources.{name_in};
ghost use Rattle.run_notes.specs.Lines.{fault_line};
ghost use Rattle.alaska_run.specs.inner.Courses.{IsWorkedOf};

use crate::Built;
use crate::checking::Worked;
use crate::preparing::text_name;
use ak_words::NoMemory;
use code_save::{SaveFault, save};
use flat_machine::{Program, Settings};
use pin_checker::Checked;
use run_notes::{Status, built_line, fault_line};
use std::alloc::Global;
use std::sync::Arc;

// What came of saving: its status, and what out and note are to take.
#[derive(Drop)]
struct Saving {
    status: Status,
    output: Vec<u8>,
    line: Vec<u8>,
}

// Code that has no code file.
fn unsaved(
    alloc: Global,
    settings: &Settings,
    text: &[u8],
    status: Status,
) -> Result<Saving, NoMemory>
    ensures { IfOk result (λ s. (s.status ≡ status) × (s.output.items ≡ []) × (s.line.items ≡ fault_line (name_in (Some settings.now)) text.now status)) }
{
    let line = fault_line(alloc, text_name(settings), text, status)?;
    Ok(Saving {
        status,
        output: Vec::new(alloc),
        line,
    })
}

// The code file of checked code.
fn save_code(
    alloc: Global,
    settings: &Settings,
    text: &[u8],
    checked: &Checked,
) -> Result<Saving, NoMemory>
    requires { can_be_saved (program_in checked.now) ≡ true }
    ensures { IfOk result (λ s. IsSavedAs (Some settings.now) text.now (program_in checked.now) s.status s.output.items s.line.items) }
{
    match save(alloc, checked) {
        Ok(output) => {
            let line = built_line(alloc, output.len())?;
            Ok(Saving {
                status: Status::Built,
                output,
                line,
            })
        }
        Err(SaveFault::TooDeep) => unsaved(alloc, settings, text, Status::CodeTooDeep),
        Err(SaveFault::TooLong) => unsaved(alloc, settings, text, Status::CodeTooLong),
        Err(SaveFault::NoMemory) => Err(NoMemory),
    }
}

/// Saves the code of a text that is compiled.
pub(crate) fn save_text(
    alloc: Global,
    settings: Settings,
    text: Vec<u8>,
    built: Built,
) -> Result<Worked, NoMemory>
    requires mode { settings.mode ≡ Build }
    requires built { IsBuilt text.items (typed_view built.typed) (program_in built.checked) (code_view built.code) }
    ensures { IfOk result (IsWorkedOf settings text.items) }
{
    let Built {
        typed,
        checked,
        code,
    } = built;
    drop(typed);
    let code = Arc::new(alloc, Program::load(alloc, code)?)?;
    let Saving {
        status,
        output,
        line,
    } = save_code(alloc, &settings, &text, &checked)?;
    Ok(Worked {
        status,
        settings,
        text,
        checked,
        code,
        output,
        line,
    })
}
