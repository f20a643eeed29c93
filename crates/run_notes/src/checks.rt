ghost use Rattle.std.specs.Prelude.{◌≡◌, ◌≤◌, ◌++◌, codes, length, IfOk, OnOk};
ghost use Rattle.run_notes.specs.Checks.{after, check_line, rule_name};
ghost use Rattle.run_notes.specs.Lines.{place_text};

use crate::lines::{line_at_place, push_number};
use ak_trace::Verdict;
use ak_words::{NoMemory, Rule};
use std::alloc::Global;

/// The name of a rule of C.
pub fn name_of_rule(rule: Rule) -> &'static [u8]
    ensures name { result.now ≡ rule_name rule }
    ensures short { length result.now ≤ 3 }
{
    match rule {
        Rule::C1 => b"C1",
        Rule::C2 => b"C2",
        Rule::C3 => b"C3",
        Rule::C4 => b"C4",
        Rule::C5 => b"C5",
        Rule::C6 => b"C6",
        Rule::C7 => b"C7",
        Rule::C8 => b"C8",
        Rule::C9 => b"C9",
        Rule::C10 => b"C10",
        Rule::C11 => b"C11",
        Rule::C12 => b"C12",
        Rule::C13 => b"C13",
        Rule::C14 => b"C14",
        Rule::C15 => b"C15",
        Rule::C16 => b"C16",
    }
}

// Writes after how many turns, to the end of the line.
fn push_after(line: &mut Vec<u8>, turns: u32) -> Result<(), NoMemory>
    ensures { OnOk result (line.new.items ≡ line.old.items ++ after turns) }
{
    line.extend_from_slice(b" after ")?;
    push_number(line, turns)?;
    line.extend_from_slice(b" turns\n")?;
    Ok(())
}

// The line of a broken rule: its place, and the rule.
fn line_of_break(
    alloc: Global,
    name: &str,
    text: &[u8],
    rule: Rule,
    place: u32,
) -> Result<Vec<u8>, NoMemory>
    ensures { IfOk result (λ line. line.items ≡ place_text name.now text.now place ++ codes "broke " ++ rule_name rule) }
{
    let mut line = line_at_place(alloc, name, text, place)?;
    line.extend_from_slice(b"broke ")?;
    line.extend_from_slice(name_of_rule(rule))?;
    Ok(line)
}

/// The line that is written to note after a check, by what it found, and by the name and the text of the file.
pub fn check_line(
    alloc: Global,
    name: &str,
    text: &[u8],
    verdict: Verdict,
) -> Result<Vec<u8>, NoMemory>
    ensures { IfOk result (λ line. line.items ≡ check_line name.now text.now verdict) }
{
    match verdict {
        Verdict::Broke { rule, place, turns } => {
            let mut line = line_of_break(alloc, name, text, rule, place)?;
            push_after(&mut line, turns)?;
            Ok(line)
        }
        Verdict::Ended { exit, turns } => {
            let mut line = Vec::from_slice(alloc, b"checked: done ")?;
            push_number(&mut line, exit)?;
            push_after(&mut line, turns)?;
            Ok(line)
        }
        Verdict::AllBlocked { turns } => {
            let mut line = Vec::from_slice(alloc, b"checked: all blocked")?;
            push_after(&mut line, turns)?;
            Ok(line)
        }
        Verdict::TurnsSpent { turns } => {
            let mut line = Vec::from_slice(alloc, b"checked: turns spent")?;
            push_after(&mut line, turns)?;
            Ok(line)
        }
    }
}
