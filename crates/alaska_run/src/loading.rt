//! Mode load: a code file, checked again, and the world in which its code is to run.

ghost use Rattle.std.specs.Prelude.{◌≤◌, length, IfOk};
ghost use Rattle.pin_checker.specs.CheckedViews.{program_in};
ghost use Rattle.code_load.specs.Loads.{IsLoaded};
ghost use Rattle.alaska_run.specs.inner.Courses.{IsLoadedOf, IsLoadingOf};

use crate::preparing::{Course, Opened, REPORT_BYTES, open_world, stop_with};
use ak_words::NoMemory;
use code_load::{LoadFault, load};
use emit_code::emit;
use flat_machine::Settings;
use pin_checker::Checked;
use run_notes::Status;
use std::alloc::Global;

// The world for the code of a file.
fn open_code(
    alloc: Global,
    settings: Settings,
    text: Vec<u8>,
    checked: Checked,
) -> Result<Opened, NoMemory>
    requires { IsLoaded text.items (program_in checked) }
    ensures { IfOk result (IsLoadedOf settings text.items) }
{
    // By its type the code is safe for moves; so is the machine's.
    let _ = checked.ir();
    let code = emit(alloc, &checked)?;
    code.keeps_lawful();
    code.keeps_valid();
    open_world(alloc, settings, text, checked, code, REPORT_BYTES)
}

/// Loads the code of a file that was read whole, and opens the world for it.
pub(crate) fn load_text(
    alloc: Global,
    settings: Settings,
    text: Vec<u8>,
) -> Result<Course, NoMemory>
    requires { length text.items ≤ 67108864 }
    ensures { IfOk result (IsLoadingOf settings text.items) }
{
    match load(alloc, &text) {
        Ok(checked) => Ok(Course::Opened(open_code(alloc, settings, text, checked)?)),
        Err(LoadFault::BadCode(place)) => {
            stop_with(alloc, settings, text, Status::BadCode(place))
        }
        Err(LoadFault::Unsafe { place, why }) => {
            stop_with(alloc, settings, text, Status::UnsafeCode { place, why })
        }
        Err(LoadFault::NoMemory) => Err(NoMemory),
    }
}
