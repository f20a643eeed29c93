//! Mode race: a run, and then its turns once more, in the order of its journal, by the source's meaning.

ghost use Rattle.std.specs.Prelude.{◌≡◌, ◌+◌, ◌*◌, ◌≤◌, length, vec_capacity, IfOk, IfSome, Some};
ghost use Rattle.c_tree.specs.TypedViews.{typed_view};
ghost use Rattle.struct_ir.specs.LinearViews.{code_view};
ghost use Rattle.pin_checker.specs.CheckedViews.{program_in};
ghost use Rattle.flat_meaning.specs.Journals.{journal_picks};
ghost use Rattle.flat_rules.specs.declared.settings.Mode.TheVariants.{Race};
ghost use Rattle.race_check.specs.Ends.{IsRaceEnd};
ghost use Rattle.alaska_run.specs.Built.{IsBuilt};
ghost use Rattle.alaska_run.specs.Races.{note_of, side_of};
ghost use Rattle.alaska_run.specs.Sources.{name_in};
ghost use Rattle.alaska_run.specs.inner.Courses.{HasARun, HasRaced, IsJudged, IsRacingOf, IsReadyToRace};

use crate::Built;
use crate::preparing::{Opened, REPORT_BYTES, open_world, text_name};
use crate::running::{Ran, run_opened};
use ak_crew::Gate;
use ak_trace::Journal;
use ak_words::NoMemory;
use c_tree::typed::Typed;
use flat_machine::Settings;
use race_check::{RaceEnd, Side, race_check};
use run_notes::{RACE_LINE_BYTES, RaceNote, RaceSide, push_race_line, status_with};
use std::alloc::Global;
use std::marker::Sync;
use std::sync::Wait;
use std::thread::Threads;

/// A run that is to be judged, and the typed tree of its text.
#[derive(Drop)]
pub(crate) struct Racing {
    pub(crate) opened: Opened,
    pub(crate) typed: Typed,
}

// How many bytes the report and the line of a race have at most, of a file of this name.
fn room_for(name: &str) -> Result<usize, NoMemory>
    ensures { IfOk result (λ n. n ≡ 1184 + 2 * length name.now) }
{
    let Ok(len) = u32::try_from(name.len()) else {
        return Err(NoMemory);
    };
    Ok(REPORT_BYTES + RACE_LINE_BYTES + 2 * len as usize)
}

/// A text that is compiled and is to run and to be judged.
pub(crate) fn open_race(
    alloc: Global,
    settings: Settings,
    text: Vec<u8>,
    built: Built,
) -> Result<Racing, NoMemory>
    requires mode { settings.mode ≡ Race }
    requires built { IsBuilt text.items (typed_view built.typed) (program_in built.checked) (code_view built.code) }
    ensures { IfOk result (IsRacingOf settings text.items) }
{
    let Built {
        typed,
        checked,
        code,
    } = built;
    let room = room_for(text_name(&settings))?;
    let opened = open_world(alloc, settings, text, checked, code, room)?;
    Ok(Racing { opened, typed })
}

// What is told of a turn that races.
fn side_of(side: Side) -> RaceSide
    ensures { result ≡ side_of side }
{
    RaceSide {
        place: side.place,
        turn: side.turn,
    }
}

// What is told of what was found.
fn note_of(found: Option<RaceEnd>) -> RaceNote
    ensures { result ≡ note_of found }
{
    match found {
        Some(RaceEnd::Clean) => RaceNote::Clean,
        Some(RaceEnd::Race { first, second }) => RaceNote::Race(side_of(first), side_of(second)),
        Some(RaceEnd::Broke { rule, turns }) => RaceNote::Broke(rule, turns),
        None => RaceNote::NotJudged,
    }
}

// What is found of the order of a journal; nothing where memory is wanting.
fn find(alloc: Global, typed: Typed, journal: &Journal) -> Option<RaceEnd>
    requires { HasARun (typed_view typed) journal.now.entries }
    ensures { IfSome result (IsRaceEnd (typed_view typed) (journal_picks journal.now.entries)) }
{
    race_check(alloc, typed, journal).ok()
}

// Judges a run that is over, and writes the line of what was found behind its report.
fn judge(alloc: Global, typed: Typed, ran: Ran) -> Ran
    requires a_run { HasARun (typed_view typed) ran.journal.entries }
    requires room { length ran.line.items + (2 * length (name_in (Some ran.settings)) + 160) ≤ vec_capacity ran.line }
    ensures { IsJudged (typed_view typed) ran result }
{
    let Ran {
        status,
        settings,
        text,
        checked,
        code,
        journal,
        output,
        mut line,
    } = ran;
    let note = note_of(find(alloc, typed, journal.journal()));
    push_race_line(&mut line, text_name(&settings), &text, note);
    Ran {
        status: status_with(note, status),
        settings,
        text,
        checked,
        code,
        journal,
        output,
        line,
    }
}

/// Runs what was opened, to its end, and judges it. The run takes no memory; judging it may come to want of memory.
pub(crate) fn run_racing<R: Threads + Wait + Sync, G: Gate>(
    rt: &R,
    alloc: Global,
    racing: Racing,
    gate: &G,
) -> Ran
    requires { IsReadyToRace racing }
    ensures { HasRaced racing result }
{
    flat_replay::laws::journals_mean_the_source();
    let Racing { opened, typed } = racing;
    judge(alloc, typed, run_opened(rt, opened, gate))
}
