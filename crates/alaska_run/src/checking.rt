//! Mode check: what is found of a text's own tree. Nothing runs.

ghost use Rattle.std.specs.Prelude.{◌≡◌, IfOk};
ghost use Rattle.c_tree.specs.TypedViews.{typed_view};
ghost use Rattle.struct_ir.specs.LinearViews.{code_view};
ghost use Rattle.pin_checker.specs.CheckedViews.{program_in};
ghost use Rattle.flat_rules.specs.declared.settings.Mode.TheVariants.{Check};
ghost use Rattle.alaska_run.specs.Built.{IsBuilt};
ghost use Rattle.alaska_run.specs.inner.Courses.{IsWorkedOf};

use crate::Built;
use crate::preparing::text_name;
use ak_words::NoMemory;
use flat_machine::{Program, Settings};
use pin_checker::Checked;
use rule_check::rule_check;
use run_notes::{Status, check_line};
use std::alloc::Global;
use std::sync::Arc;

/// What a mode did that runs nothing: its status, what the words said, the text and its code, and what out and note are to take.
#[derive(Drop)]
pub(crate) struct Worked {
    pub(crate) status: Status,
    pub(crate) settings: Settings,
    pub(crate) text: Vec<u8>,
    pub(crate) checked: Checked,
    pub(crate) code: Arc<Program, Global>,
    pub(crate) output: Vec<u8>,
    pub(crate) line: Vec<u8>,
}

/// Checks the tree of a text that is compiled.
pub(crate) fn check_text(
    alloc: Global,
    settings: Settings,
    text: Vec<u8>,
    built: Built,
) -> Result<Worked, NoMemory>
    requires mode { settings.mode ≡ Check }
    requires built { IsBuilt text.items (typed_view built.typed) (program_in built.checked) (code_view built.code) }
    ensures { IfOk result (IsWorkedOf settings text.items) }
{
    let Built {
        typed,
        checked,
        code,
    } = built;
    let code = Arc::new(alloc, Program::load(alloc, code)?)?;
    let report = rule_check(
        alloc,
        typed,
        settings.schedule.unwrap_or(0),
        settings.entries,
    )?;
    let line = check_line(alloc, text_name(&settings), &text, report.verdict)?;
    Ok(Worked {
        status: Status::Checked(report.verdict),
        settings,
        text,
        checked,
        code,
        output: report.output,
        line,
    })
}
