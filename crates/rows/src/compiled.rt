//! What C texts come to as they are compiled: two tables in data/ tell the listing of each text's typed tree, or where and why it has none, and of
//! some texts the code is printed, in outline or whole. It is told which trees are as they were worked out by hand, and the others are shown.

mod code_listing;
mod codes;
mod exprs;
mod linear_listing;
mod listing;
mod row;
mod stmts;
mod types;

use crate::compiled::codes::show_codes;
use crate::compiled::row::Row;
use std::{fs, io};

// The tables: of the other forms, and of names of types, enums, switches and dos.
const TABLES: [&str; 2] = ["trees.txt", "form_trees.txt"];

// In a table `== ` begins a row, `# ` what is to be said of it, and `| ` its text; all else is its listing.
fn judge_table(rt: &HostRuntime, table: &str) -> io::Result<()> {
    let mut row = Row::new(rt.alloc(), "");
    for line in table.lines() {
        if let Some(heading) = line.strip_prefix("== ") {
            row.report(rt)?;
            row = Row::new(rt.alloc(), heading);
        } else if let Some(text) = line.strip_prefix("| ") {
            row.text = text;
        } else if !line.is_empty() && !line.starts_with('#') {
            row.tell(line)?;
        }
    }
    row.report(rt)
}

/// Prints what the texts come to.
pub fn run(rt: &HostRuntime) -> io::Result<()> {
    for name in TABLES {
        let table = fs::read_to_string(rt, name)?;
        judge_table(rt, &table)?;
    }
    show_codes(rt)
}
