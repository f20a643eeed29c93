//! Tables of texts of C, read from files: each text is accepted, or refused where it is marked and for the reason that its table tells. What is
//! printed counts the texts of which that is so, and shows the others.

mod group;
mod judging;
mod marked;

use crate::texts::group::Group;
use std::{fs, io};

// The tables: of bytes and tokens, of the grammar, of names and types, and of names of types, enums, switches and dos.
const TABLES: [&str; 4] = ["tokens.txt", "grammar.txt", "types.txt", "forms.txt"];

// Judges each row of a table, whose first line is a heading, and prints a line for each of its groups.
fn judge_table(rt: &HostRuntime, table: &str) -> io::Result<()> {
    let mut group = Group::new("");
    for (number, line) in table.lines().enumerate() {
        if let Some(heading) = line.strip_prefix("== ") {
            if number > 0 {
                group.report(rt)?;
            }
            group = Group::new(heading);
        } else if let Some(name) = line.strip_prefix(":: file ") {
            let text = fs::read_to_string(rt, name)?;
            group.judge(rt, &text, 1, true)?;
        } else if let Some(setting) = line.strip_prefix(":: ") {
            group.set(setting);
        } else if !line.is_empty() {
            group.judge_row(rt, line)?;
        }
    }
    group.report(rt)
}

/// Judges the texts of each table.
pub fn run(rt: &HostRuntime) -> io::Result<()> {
    for name in TABLES {
        let table = fs::read_to_string(rt, name)?;
        judge_table(rt, &table)?;
    }
    Ok(())
}
