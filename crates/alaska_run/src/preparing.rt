//! What comes before anything is written, but for a run: the words, the text, its code, and the world that the workers share, or what a check
//! finds or saving gives.

ghost use Rattle.std.specs.Prelude.{◌≡◌, ◌≢◌, ◌≤◌, ℕ, List, [], map, string_bytes, length, unwrap_or, vec_capacity, IfOk, Some, None};
ghost use Rattle.std.specs.Arc.{arc_value};
ghost use Rattle.c_tree.specs.TypedViews.{typed_view};
ghost use Rattle.struct_ir.specs.LinearViews.{code_view};
ghost use Rattle.pin_checker.specs.CheckedViews.{program_in};
ghost use Rattle.alaska_run.specs.Built.{IsBuilt};
ghost use Rattle.run_words.specs.Wanted.{Wanted, settings_of, wanted_of};
ghost use Rattle.alaska_run.specs.Sources.{name_in};
ghost use Rattle.run_edges.specs.Files.{Shelved, shelved};
ghost use Rattle.alaska_run.specs.inner.Courses.{IsCourse, IsCourseOf, IsOpenedOf, IsReady, IsStoppedAs};

use crate::building::save_text;
use crate::checking::{Worked, check_text};
use crate::loading::load_text;
use crate::racing::{Racing, open_race};
use crate::{Built, compile};
use ak_io::Shelf;
use ak_words::NoMemory;
use ak_world::{SharedWorld, World};
use c_lex::{CompileFault, Kind};
use flat_machine::{Context, Mode, Program, Settings, Shared};
use pin_checker::Checked;
use run_churn::churn_text;
use run_edges::{MOST_BYTES, MOST_FILE_BYTES, TextRead, read_text};
use run_notes::{Status, fault_line};
use run_words::read_settings;
use std::alloc::Global;
use std::sync::Arc;
use struct_ir::linear::Code;
use turn_lock::Pass;

/// How many bytes a report has at most.
pub(crate) const REPORT_BYTES: usize = 1024;

/// A call that comes to no run: its status, what the words said, the text, and the line for note.
#[derive(Drop)]
pub(crate) struct Stopped {
    pub(crate) status: Status,
    pub(crate) settings: Option<Settings>,
    pub(crate) text: Vec<u8>,
    pub(crate) line: Vec<u8>,
}

/// A run in which nothing has run, with all the memory that it can come to use.
#[derive(Drop)]
pub(crate) struct Opened {
    pub(crate) settings: Settings,
    pub(crate) text: Vec<u8>,
    pub(crate) checked: Checked,
    pub(crate) code: Arc<Program, Global>,
    pub(crate) world: SharedWorld<Shared, Program, Context>,
    pub(crate) passes: Vec<Pass<World<Shared, Program, Context>>>,
    pub(crate) line: Vec<u8>,
}

/// What words and text come to.
#[derive(Drop)]
pub(crate) enum Course {
    Stopped(Stopped),
    Opened(Opened),
    Racing(Racing),
    Worked(Worked),
}

// The name of the file that the settings give, or none.
fn file_name(settings: &Settings) -> &str
    ensures { result.now ≡ unwrap_or (wanted_of settings.now).file [] }
{
    match &settings.file {
        Some(name) => name.as_str(),
        None => "",
    }
}

/// The name of the text in its lines.
pub(crate) fn text_name(settings: &Settings) -> &str
    ensures { result.now ≡ name_in (Some settings.now) }
{
    match settings.mode {
        Mode::Churn => "churn",
        _ => file_name(settings),
    }
}

// Words that are no settings.
fn stopped_by_words(alloc: Global) -> Result<Course, NoMemory>
    ensures { IfOk result (IsStoppedAs Status.Usage None []) }
{
    let text = Vec::new(alloc);
    let line = fault_line(alloc, "", &text, Status::Usage)?;
    Ok(Course::Stopped(Stopped {
        status: Status::Usage,
        settings: None,
        text,
        line,
    }))
}

/// A text that was not read, or is none of the subset, or no code file that may run.
pub(crate) fn stop_with(
    alloc: Global,
    settings: Settings,
    text: Vec<u8>,
    status: Status,
) -> Result<Course, NoMemory>
    ensures { IfOk result (IsStoppedAs status (Some settings) text.items) }
{
    let line = fault_line(alloc, text_name(&settings), &text, status)?;
    Ok(Course::Stopped(Stopped {
        status,
        settings: Some(settings),
        text,
        line,
    }))
}

/// The world for the code of a text, and room for what note is to take.
pub(crate) fn open_world(
    alloc: Global,
    settings: Settings,
    text: Vec<u8>,
    checked: Checked,
    code: Code,
    room: usize,
) -> Result<Opened, NoMemory>
    requires { 1024 ≤ room }
    ensures ready { IfOk result IsReady }
    ensures room { IfOk result (λ x. vec_capacity x.line ≡ room) }
    ensures kept { IfOk result (λ x. (x.settings ≡ settings) × (x.text ≡ text) × (x.checked ≡ checked) × (arc_value x.code ≡ code_view code)) }
{
    let code = Arc::new(alloc, Program::load(alloc, code)?)?;
    let (world, passes) = SharedWorld::open(alloc, Arc::clone(&code)?, &settings)?;
    let line = Vec::with_capacity(alloc, room)?;
    Ok(Opened {
        settings,
        text,
        checked,
        code,
        world,
        passes,
        line,
    })
}

// A text that is compiled and is to run.
fn open_text(
    alloc: Global,
    settings: Settings,
    text: Vec<u8>,
    built: Built,
) -> Result<Opened, NoMemory>
    requires not_checked { settings.mode ≢ Mode.Check }
    requires not_judged { settings.mode ≢ Mode.Race }
    requires not_built { settings.mode ≢ Mode.Build }
    requires built { IsBuilt text.items (typed_view built.typed) (program_in built.checked) (code_view built.code) }
    ensures { IfOk result (IsOpenedOf settings text.items) }
{
    let Built {
        typed,
        checked,
        code,
    } = built;
    drop(typed);
    open_world(alloc, settings, text, checked, code, REPORT_BYTES)
}

// What the mode does with a text that is compiled: it is checked, or its code is saved, or the world is opened in which it is to run.
fn begin(alloc: Global, settings: Settings, text: Vec<u8>, built: Built) -> Result<Course, NoMemory>
    requires { IsBuilt text.items (typed_view built.typed) (program_in built.checked) (code_view built.code) }
    ensures { IfOk result (IsCourseOf settings text.items) }
{
    match settings.mode {
        Mode::Check => Ok(Course::Worked(check_text(alloc, settings, text, built)?)),
        Mode::Race => Ok(Course::Racing(open_race(alloc, settings, text, built)?)),
        Mode::Build => Ok(Course::Worked(save_text(alloc, settings, text, built)?)),
        _ => Ok(Course::Opened(open_text(alloc, settings, text, built)?)),
    }
}

// A text that is all of its source.
fn compile_text(alloc: Global, settings: Settings, text: Vec<u8>) -> Result<Course, NoMemory>
    requires { length text.items ≤ 1048576 }
    ensures { IfOk result (IsCourseOf settings text.items) }
{
    match compile(alloc, &text) {
        Ok(built) => begin(alloc, settings, text, built),
        Err(CompileFault::Refused(refusal)) => {
            stop_with(
                alloc,
                settings,
                text,
                Status::Refused(refusal.place, refusal.kind),
            )
        }
        Err(CompileFault::NoMemory) => Err(NoMemory),
    }
}

// The file that the settings name, compiled, and what the mode does with it begun.
fn prepare_file<F: Shelf>(
    alloc: Global,
    settings: Settings,
    shelf: &mut F,
) -> Result<Course, NoMemory>
    requires not_churned { settings.mode ≢ Mode.Churn }
    requires not_loaded { settings.mode ≢ Mode.Load }
    ensures { (words : List (List ℕ)) → settings_of words ≡ Some (wanted_of settings) → IfOk result (IsCourse words (shelved F.contents F.faults shelf.old shelf.new)) }
{
    match read_text(alloc, shelf, file_name(&settings), MOST_BYTES)? {
        TextRead::Whole(text) => compile_text(alloc, settings, text),
        TextRead::Front(text) => {
            stop_with(
                alloc,
                settings,
                text,
                Status::Refused(MOST_BYTES as u32, Kind::TooLong),
            )
        }
        TextRead::Fault => stop_with(alloc, settings, Vec::new(alloc), Status::ReadFault),
    }
}

// The code file that the settings name, loaded, and the world opened.
fn prepare_load<F: Shelf>(
    alloc: Global,
    settings: Settings,
    shelf: &mut F,
) -> Result<Course, NoMemory>
    requires { settings.mode ≡ Mode.Load }
    ensures { (words : List (List ℕ)) → settings_of words ≡ Some (wanted_of settings) → IfOk result (IsCourse words (shelved F.contents F.faults shelf.old shelf.new)) }
{
    match read_text(alloc, shelf, file_name(&settings), MOST_FILE_BYTES)? {
        TextRead::Whole(text) => load_text(alloc, settings, text),
        TextRead::Front(text) => stop_with(alloc, settings, text, Status::FileTooLong),
        TextRead::Fault => stop_with(alloc, settings, Vec::new(alloc), Status::ReadFault),
    }
}

// The text of settings of mode churn, compiled, and the world opened.
fn prepare_churn(alloc: Global, settings: Settings) -> Result<Course, NoMemory>
    requires { settings.mode ≡ Mode.Churn }
    ensures { (words : List (List ℕ)) (file : List ℕ → Shelved) → settings_of words ≡ Some (wanted_of settings) → IfOk result (IsCourse words file) }
{
    let text = churn_text(
        alloc,
        settings.seed.unwrap_or(0),
        settings.size.unwrap_or(1),
    )?;
    compile_text(alloc, settings, text)
}

/// Reads the words, then reads the file or, in mode churn, makes the text; compiles it, and opens the world or, in mode check, checks it, or, in mode
/// build, saves its code. In mode load the file's code is loaded, and the world opened.
pub(crate) fn prepare<F: Shelf>(
    alloc: Global,
    words: &[String],
    shelf: &mut F,
) -> Result<Course, NoMemory>
    ensures course { IfOk result (IsCourse (map string_bytes words.now) (shelved F.contents F.faults shelf.old shelf.new)) }
    ensures uncalled { settings_of (map string_bytes words.now) ≡ None → shelf.new ≡ shelf.old }
    ensures unread { (wanted : Wanted) → settings_of (map string_bytes words.now) ≡ Some wanted → wanted.mode ≡ Mode.Churn → shelf.new ≡ shelf.old }
{
    let Some(settings) = read_settings(alloc, words)? else {
        return stopped_by_words(alloc);
    };
    match settings.mode {
        Mode::Churn => prepare_churn(alloc, settings),
        Mode::Load => prepare_load(alloc, settings, shelf),
        _ => prepare_file(alloc, settings, shelf),
    }
}
