//! What is told of the races of a run. It takes no memory but what is reserved.
ghost use Rattle.std.specs.Prelude.{◌≡◌, ◌+◌, ◌*◌, ◌≤◌, ◌++◌, codes, decimal, length, vec_len, vec_capacity};
ghost use Rattle.run_notes.specs.Checks.{after, rule_name};
ghost use Rattle.run_notes.specs.Lines.{spot_text};
ghost use Rattle.run_notes.specs.Races.{race_line, status_with};

use crate::checks::name_of_rule;
use crate::lines::{column_number, line_number};
use crate::pieces::{push_bytes, push_decimal};
use crate::status::Status;
use ak_words::Rule;

/// How many bytes the line of a race has at most, beside the name of the file, which may stand in it twice.
pub const RACE_LINE_BYTES: usize = 160;

/// One of two accesses that race.
#[derive(Clone, Copy, Debug, PartialEq, Eq)]
pub struct RaceSide {
    /// Its place in the text, as a byte offset from 0.
    pub place: u32,
    /// The number of its turn, from 0.
    pub turn: u64,
}

/// What was found of the races of a run.
#[derive(Clone, Copy, Debug, PartialEq, Eq)]
pub enum RaceNote {
    /// No two of its turns race.
    Clean,
    /// These accesses race.
    Race(RaceSide, RaceSide),
    /// A turn breaks this rule of C, after so many turns, of which no two race.
    Broke(Rule, u64),
    /// Memory was wanting.
    NotJudged,
}

// Writes a place of a text.
fn push_spot(line: &mut Vec<u8>, name: &str, text: &[u8], place: u32)
    requires { vec_len line.old + (length name.now + 42) ≤ vec_capacity line.old }
    ensures items { line.new.items ≡ line.old.items ++ spot_text name.now text.now place }
    ensures len { vec_len line.new ≤ vec_len line.old + (length name.now + 42) }
    ensures capacity { vec_capacity line.new ≡ vec_capacity line.old }
{
    push_bytes(line, name.as_bytes());
    push_bytes(line, b":");
    push_decimal(line, line_number(text, place as usize));
    push_bytes(line, b":");
    push_decimal(line, column_number(text, place as usize));
}

// Writes the places of two accesses.
fn push_places(line: &mut Vec<u8>, name: &str, text: &[u8], first: u32, second: u32)
    requires { vec_len line.old + (2 * length name.now + 89) ≤ vec_capacity line.old }
    ensures items { line.new.items ≡ line.old.items ++ spot_text name.now text.now first ++ codes " and " ++ spot_text name.now text.now second }
    ensures len { vec_len line.new ≤ vec_len line.old + (2 * length name.now + 89) }
    ensures capacity { vec_capacity line.new ≡ vec_capacity line.old }
{
    push_spot(line, name, text, first);
    push_bytes(line, b" and ");
    push_spot(line, name, text, second);
}

// Writes the numbers of their turns.
fn push_turns(line: &mut Vec<u8>, first: u64, second: u64)
    requires { vec_len line.old + 54 ≤ vec_capacity line.old }
    ensures items { line.new.items ≡ line.old.items ++ codes ", turns " ++ decimal first ++ codes " and " ++ decimal second ++ codes "\n" }
    ensures len { vec_len line.new ≤ vec_len line.old + 54 }
    ensures capacity { vec_capacity line.new ≡ vec_capacity line.old }
{
    push_bytes(line, b", turns ");
    push_decimal(line, first);
    push_bytes(line, b" and ");
    push_decimal(line, second);
    push_bytes(line, b"\n");
}

// Writes which rule a turn breaks, and after how many turns.
fn push_broken(line: &mut Vec<u8>, rule: Rule, turns: u64)
    requires { vec_len line.old + 49 ≤ vec_capacity line.old }
    ensures items { line.new.items ≡ line.old.items ++ codes "race: broke " ++ rule_name rule ++ after turns }
    ensures capacity { vec_capacity line.new ≡ vec_capacity line.old }
{
    push_bytes(line, b"race: broke ");
    push_bytes(line, name_of_rule(rule));
    push_bytes(line, b" after ");
    push_decimal(line, turns);
    push_bytes(line, b" turns\n");
}

/// Writes the line of what was found behind the bytes that are there, by the name and the text of the file. It has no more bytes than are reserved,
/// so no memory is taken.
pub fn push_race_line(line: &mut Vec<u8>, name: &str, text: &[u8], note: RaceNote)
    requires { vec_len line.old + (2 * length name.now + 160) ≤ vec_capacity line.old }
    ensures { line.new.items ≡ line.old.items ++ race_line name.now text.now note }
{
    match note {
        RaceNote::Clean => push_bytes(line, b"race: none\n"),
        RaceNote::Race(first, second) => {
            push_bytes(line, b"race: ");
            push_places(line, name, text, first.place, second.place);
            push_turns(line, first.turn, second.turn);
        }
        RaceNote::Broke(rule, turns) => push_broken(line, rule, turns),
        RaceNote::NotJudged => push_bytes(line, b"race: not judged\n"),
    }
}

/// The status of a run that was judged, by that of its end.
pub fn status_with(note: RaceNote, status: Status) -> Status
    ensures { result ≡ status_with note status }
{
    match note {
        RaceNote::Clean | RaceNote::Broke(_, _) => status,
        RaceNote::Race(first, second) => Status::Raced(first.place, second.place),
        RaceNote::NotJudged => Status::NoMemory,
    }
}
