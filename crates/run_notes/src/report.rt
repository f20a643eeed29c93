ghost use Rattle.std.specs.Prelude.{◌≡◌, ◌+◌, ◌≤◌, ◌++◌, [], length, codes, decimal, vec_len, vec_capacity};
ghost use Rattle.run_notes.specs.Reports.{barrier_text, end_text, evacuated_text, last_text, line, objects_text, report_text, sub_heaps_text, trap_name};

use crate::pieces::{push_bytes, push_decimal};
use ak_trace::{End, TrapKind};
use run_report::{LastBarrier, Report};

// The name of a kind of trap.
fn name_of_trap(kind: TrapKind) -> &'static [u8]
    ensures name { result.now ≡ trap_name kind }
    ensures short { length result.now ≤ 5 }
{
    match kind {
        TrapKind::Load => b"load",
        TrapKind::Store => b"store",
        TrapKind::Copy => b"copy",
        TrapKind::Free => b"free",
        TrapKind::Lock => b"lock",
        TrapKind::Print => b"print",
        TrapKind::Start => b"start",
        TrapKind::Join => b"join",
    }
}

// Writes what a run that came to a trap ended with.
fn push_trap(text: &mut Vec<u8>, word: u64, kind: TrapKind)
    requires { vec_len text.old + 31 ≤ vec_capacity text.old }
    ensures items { text.new.items ≡ text.old.items ++ end_text (End.Trap word kind) }
    ensures len { vec_len text.new ≤ vec_len text.old + 31 }
    ensures capacity { vec_capacity text.new ≡ vec_capacity text.old }
{
    push_bytes(text, b"trap ");
    push_bytes(text, name_of_trap(kind));
    push_bytes(text, b" ");
    push_decimal(text, word);
}

// Writes how a run ended.
fn push_end(text: &mut Vec<u8>, end: End)
    requires { vec_len text.old + 31 ≤ vec_capacity text.old }
    ensures items { text.new.items ≡ text.old.items ++ end_text end }
    ensures len { vec_len text.new ≤ vec_len text.old + 31 }
    ensures capacity { vec_capacity text.new ≡ vec_capacity text.old }
{
    match end {
        End::Done(value) => {
            push_bytes(text, b"done ");
            push_decimal(text, value);
        }
        End::Trap(word, kind) => push_trap(text, word, kind),
        End::AllBlocked => push_bytes(text, b"all blocked"),
        End::TurnLimit => push_bytes(text, b"turn limit"),
        End::OutputLimit => push_bytes(text, b"output limit"),
        End::StackLimit(thread) => {
            push_bytes(text, b"stack limit ");
            push_decimal(text, thread);
        }
    }
}

// Writes the line of how a run ended.
fn push_ended(text: &mut Vec<u8>, end: End)
    requires { vec_len text.old + 40 ≤ vec_capacity text.old }
    ensures items { text.new.items ≡ text.old.items ++ line (codes "ended") (end_text end) }
    ensures len { vec_len text.new ≤ vec_len text.old + 40 }
    ensures capacity { vec_capacity text.new ≡ vec_capacity text.old }
{
    push_bytes(text, b"ended: ");
    push_end(text, end);
    push_bytes(text, b"\n");
}

// Writes the line of a number.
fn push_count(text: &mut Vec<u8>, of: &[u8], number: u64)
    requires { vec_len text.old + (length of.now + 23) ≤ vec_capacity text.old }
    ensures items { text.new.items ≡ text.old.items ++ line of.now (decimal number) }
    ensures len { vec_len text.new ≤ vec_len text.old + (length of.now + 23) }
    ensures capacity { vec_capacity text.new ≡ vec_capacity text.old }
{
    push_bytes(text, of);
    push_bytes(text, b": ");
    push_decimal(text, number);
    push_bytes(text, b"\n");
}

// Writes so many objects, and their bytes.
fn push_objects(text: &mut Vec<u8>, of: &[u8], objects: u64, bytes: u64)
    requires { vec_len text.old + (length of.now + 59) ≤ vec_capacity text.old }
    ensures items { text.new.items ≡ text.old.items ++ line of.now (objects_text objects bytes) }
    ensures len { vec_len text.new ≤ vec_len text.old + (length of.now + 59) }
    ensures capacity { vec_capacity text.new ≡ vec_capacity text.old }
{
    push_bytes(text, of);
    push_bytes(text, b": ");
    push_decimal(text, objects);
    push_bytes(text, b" objects, ");
    push_decimal(text, bytes);
    push_bytes(text, b" bytes\n");
}

// Writes the line of the extent.
fn push_extent(text: &mut Vec<u8>, extent: u64, heap: u64)
    requires { vec_len text.old + 53 ≤ vec_capacity text.old }
    ensures items { text.new.items ≡ text.old.items ++ line (codes "extent") (decimal extent ++ codes " of " ++ decimal heap) }
    ensures len { vec_len text.new ≤ vec_len text.old + 53 }
    ensures capacity { vec_capacity text.new ≡ vec_capacity text.old }
{
    push_bytes(text, b"extent: ");
    push_decimal(text, extent);
    push_bytes(text, b" of ");
    push_decimal(text, heap);
    push_bytes(text, b"\n");
}

// Writes what is told of a barrier.
fn push_barrier(text: &mut Vec<u8>, barrier: LastBarrier)
    requires { vec_len text.old + 78 ≤ vec_capacity text.old }
    ensures items { text.new.items ≡ text.old.items ++ barrier_text barrier }
    ensures len { vec_len text.new ≤ vec_len text.old + 78 }
    ensures capacity { vec_capacity text.new ≡ vec_capacity text.old }
{
    push_bytes(text, b"extent ");
    push_decimal(text, barrier.before);
    push_bytes(text, b" to ");
    push_decimal(text, barrier.after);
    push_bytes(text, b", room ");
    push_decimal(text, barrier.room);
}

// Writes what is told of the last barrier, where there was one.
fn push_barrier_or_none(text: &mut Vec<u8>, last: Option<LastBarrier>)
    requires { vec_len text.old + 78 ≤ vec_capacity text.old }
    ensures items { text.new.items ≡ text.old.items ++ last_text last }
    ensures len { vec_len text.new ≤ vec_len text.old + 78 }
    ensures capacity { vec_capacity text.new ≡ vec_capacity text.old }
{
    match last {
        Some(barrier) => push_barrier(text, barrier),
        None => push_bytes(text, b"none"),
    }
}

// Writes the line of the last barrier.
fn push_last(text: &mut Vec<u8>, last: Option<LastBarrier>)
    requires { vec_len text.old + 93 ≤ vec_capacity text.old }
    ensures items { text.new.items ≡ text.old.items ++ line (codes "last barrier") (last_text last) }
    ensures len { vec_len text.new ≤ vec_len text.old + 93 }
    ensures capacity { vec_capacity text.new ≡ vec_capacity text.old }
{
    push_bytes(text, b"last barrier: ");
    push_barrier_or_none(text, last);
    push_bytes(text, b"\n");
}

// Writes so many sub-heaps.
fn push_sub_heaps(text: &mut Vec<u8>, of: &[u8], number: u64)
    requires { vec_len text.old + (length of.now + 33) ≤ vec_capacity text.old }
    ensures items { text.new.items ≡ text.old.items ++ line of.now (sub_heaps_text number) }
    ensures len { vec_len text.new ≤ vec_len text.old + (length of.now + 33) }
    ensures capacity { vec_capacity text.new ≡ vec_capacity text.old }
{
    push_bytes(text, of);
    push_bytes(text, b": ");
    push_decimal(text, number);
    push_bytes(text, b" sub-heaps\n");
}

// Writes the line of evacuations, where they are wanted.
fn push_evacuated(text: &mut Vec<u8>, evacuates: bool, emptied: u32)
    requires { vec_len text.old + 42 ≤ vec_capacity text.old }
    ensures items { text.new.items ≡ text.old.items ++ evacuated_text evacuates emptied }
    ensures len { vec_len text.new ≤ vec_len text.old + 42 }
    ensures capacity { vec_capacity text.new ≡ vec_capacity text.old }
{
    if evacuates {
        push_sub_heaps(text, b"evacuated", u64::from(emptied));
    }
}

/// Writes the report of a run that ended so, with the line of evacuations where they are wanted. It has no more bytes than are reserved, so no memory
/// is taken.
#[tactic(auto, unfolding(crate::specs::Reports::report_text))]
pub fn push_report(text: &mut Vec<u8>, evacuates: bool, end: End, report: &Report)
    requires empty { text.old.items ≡ [] }
    requires reserved { 1024 ≤ vec_capacity text.old }
    ensures text { text.new.items ≡ report_text evacuates end report.now }
    ensures short { length text.new.items ≤ 1024 }
    ensures capacity { vec_capacity text.new ≡ vec_capacity text.old }
{
    push_ended(text, end);
    push_count(text, b"threads", u64::from(report.threads));
    push_count(text, b"entries", u64::from(report.entries));
    push_count(text, b"barriers", report.barriers);
    push_objects(text, b"moved", report.moved_objects, report.moved_bytes);
    push_objects(
        text,
        b"live",
        u64::from(report.live_objects),
        report.live_bytes,
    );
    push_extent(text, report.extent, report.heap);
    push_last(text, report.last);
    push_evacuated(text, evacuates, report.emptied);
}
