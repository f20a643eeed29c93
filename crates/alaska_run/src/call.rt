//! The call.

ghost use Rattle.std.specs.Prelude.{◌≡◌, [], map, string_bytes, codes, Some, None};
ghost use Rattle.flat_rules.specs.declared.settings.Mode.TheVariants.{Churn};
ghost use Rattle.run_words.specs.Wanted.{Wanted, settings_of};
ghost use Rattle.alaska_run.specs.Answers.{Causes, Answers};
ghost use Rattle.alaska_run.specs.Ending.{ending_view};
ghost use Rattle.alaska_run.specs.Headline.{Headline};
ghost use Rattle.run_edges.specs.Files.{shelved};
ghost use Rattle.run_edges.specs.Sinks.{channel};
ghost use Rattle.run_edges.specs.Writing.{Written};

use crate::checking::Worked;
use crate::ending::Ending;
use crate::preparing::{Course, Stopped, prepare};
use crate::racing::run_racing;
use crate::running::{Ran, run_opened};
use ak_crew::Gate;
use ak_io::{Shelf, Sink};
use ak_words::NoMemory;
use run_edges::write_ending;
use run_notes::Status;
use std::alloc::Global;
use std::marker::Sync;
use std::sync::Wait;
use std::thread::Threads;

// Writes what a run printed, and its report.
fn end_run<O: Sink, N: Sink>(ran: Ran, out: &mut O, note: &mut N) -> Ending
    ensures written { Written ran.status result.status ran.output.items ran.line.items (channel O.contents O.faults out.old out.new) (channel N.contents N.faults note.old note.new) }
    ensures words { (result.settings ≡ Some ran.settings) × (result.text ≡ ran.text) }
    ensures code { (result.checked ≡ Some ran.checked) × (result.code ≡ Some ran.code) }
    ensures journal { result.journal ≡ Some ran.journal }
{
    let Ran {
        status,
        settings,
        text,
        checked,
        code,
        journal,
        output,
        line,
    } = ran;
    Ending {
        status: write_ending(status, &output, &line, out, note),
        settings: Some(settings),
        text,
        checked: Some(checked),
        code: Some(code),
        journal: Some(journal),
    }
}

// Writes what a mode did that runs nothing.
fn end_worked<O: Sink, N: Sink>(worked: Worked, out: &mut O, note: &mut N) -> Ending
    ensures written { Written worked.status result.status worked.output.items worked.line.items (channel O.contents O.faults out.old out.new) (channel N.contents N.faults note.old note.new) }
    ensures words { (result.settings ≡ Some worked.settings) × (result.text ≡ worked.text) }
    ensures code { (result.checked ≡ Some worked.checked) × (result.code ≡ Some worked.code) }
    ensures journal { result.journal ≡ None }
{
    let Worked {
        status,
        settings,
        text,
        checked,
        code,
        output: printed,
        line,
    } = worked;
    Ending {
        status: write_ending(status, &printed, &line, out, note),
        settings: Some(settings),
        text,
        checked: Some(checked),
        code: Some(code),
        journal: None,
    }
}

// Writes why nothing ran.
fn end_stopped<O: Sink, N: Sink>(stopped: Stopped, out: &mut O, note: &mut N) -> Ending
    ensures written { Written stopped.status result.status [] stopped.line.items (channel O.contents O.faults out.old out.new) (channel N.contents N.faults note.old note.new) }
    ensures words { (result.settings ≡ stopped.settings) × (result.text ≡ stopped.text) }
    ensures code { (result.checked ≡ None) × (result.code ≡ None) }
    ensures journal { result.journal ≡ None }
{
    let Stopped {
        status,
        settings,
        text,
        line,
    } = stopped;
    Ending {
        status: write_ending(status, &[], &line, out, note),
        settings,
        text,
        checked: None,
        code: None,
        journal: None,
    }
}

// Writes that memory was wanting.
fn end_without_memory<O: Sink, N: Sink>(alloc: Global, out: &mut O, note: &mut N) -> Ending
    ensures written { Written Status.NoMemory result.status [] (codes "alaska: out of memory\n") (channel O.contents O.faults out.old out.new) (channel N.contents N.faults note.old note.new) }
    ensures words { (result.settings ≡ None) × (result.text.items ≡ []) }
    ensures code { (result.checked ≡ None) × (result.code ≡ None) }
    ensures journal { result.journal ≡ None }
{
    Ending {
        status: write_ending(Status::NoMemory, &[], b"alaska: out of memory\n", out, note),
        settings: None,
        text: Vec::new(alloc),
        checked: None,
        code: None,
        journal: None,
    }
}

/// Reads the words; reads FILE or, in mode churn, makes the text; compiles it, and runs it with as many workers as the words say. Then `out`
/// takes what the program printed, in one piece, and `note` the report, or one line that tells why nothing ran. A worker goes through `gate`
/// before each of its calls.
///
/// In mode check no code runs: the source's run of the text's own typed tree is checked, in the order of the schedule's seed, and `note` takes
/// the line of the first rule that it breaks, or of how it ends.
///
/// In mode race a text runs as in mode run, and then the turns that the journal tells are gone through once more, by the source's meaning of the text's
/// own typed tree. Behind the report `note` takes the line of the first two accesses that race, or that none do.
///
/// In mode build no code runs either: `out` takes the code file of the text's checked code, and `note` the line of its length, or of what it has too
/// much of. In mode load FILE is such a file: its code is checked again, and runs as that of a text does.
///
/// Where `out` fails, `note` is not written. Once the world was opened no memory is taken, but to judge a run in mode race; that, a check or saving may
/// come to want of memory.
pub fn alaska<R: Threads + Wait + Sync, F: Shelf, O: Sink, N: Sink, G: Gate>(
    rt: &R,
    alloc: Global,
    words: &[String],
    shelf: &mut F,
    out: &mut O,
    note: &mut N,
    gate: &G,
) -> Ending
    // What was written, and how the call ended.
    ensures headline { Headline (map string_bytes words.now) (shelved F.contents F.faults shelf.old shelf.new)
        (channel O.contents O.faults out.old out.new) (channel N.contents N.faults note.old note.new) (ending_view result) }

    // Each status comes only where it has its cause.
    ensures causes { Causes (map string_bytes words.now) (shelved F.contents F.faults shelf.old shelf.new)
        (channel O.contents O.faults out.old out.new) (channel N.contents N.faults note.old note.new) (ending_view result) }

    // And it comes just there, where nothing failed and memory sufficed.
    ensures answers { Answers (map string_bytes words.now) (shelved F.contents F.faults shelf.old shelf.new)
        (channel O.contents O.faults out.old out.new) (channel N.contents N.faults note.old note.new) (ending_view result) }

    // With words that are no settings the shelf isn't called.
    ensures uncalled { settings_of (map string_bytes words.now) ≡ None → shelf.new ≡ shelf.old }

    // Nor is it in mode churn.
    ensures unread { (wanted : Wanted) → settings_of (map string_bytes words.now) ≡ Some wanted → wanted.mode ≡ Churn → shelf.new ≡ shelf.old }
{
    crate::laws::read_each_text_once();
    crate::laws::load_each_file_once();
    c_meaning::laws::turns_go_on();
    c_meaning::laws::runs_go_on();
    lower_turns::laws::code_with_looks_keeps_every_turn();
    flat_replay::laws::journals_mean_the_source();
    flat_replay::laws::accesses_of_journals_stay();
    match prepare(alloc, words, shelf) {
        Ok(Course::Opened(opened)) => end_run(run_opened(rt, opened, gate), out, note),
        Ok(Course::Racing(racing)) => end_run(run_racing(rt, alloc, racing, gate), out, note),
        Ok(Course::Worked(worked)) => end_worked(worked, out, note),
        Ok(Course::Stopped(stopped)) => end_stopped(stopped, out, note),
        Err(NoMemory) => end_without_memory(alloc, out, note),
    }
}
