//! Measures the table of handles: takes and gives of ids, where all ids but one are in use.

use ak_words::NoMemory;
use handle_table::Table;
use std::io;
use std::time::Instant;

// The most ids that a table may have.
const MOST_IDS: u32 = 1_048_576;

// Takes as many ids as this, and then gives each of them back in turn and takes the least free one. What it gives is the
// last id that was taken.
fn take_and_give(table: &mut Table, ids: u32) -> Option<u32> {
    for _ in 0..ids {
        let _ = table.take();
    }
    let mut last = None;
    for id in 0..ids {
        if table.in_use(id) {
            table.give(id);
        }
        last = table.take();
    }
    last
}

/// Fills a table of so many ids, gives each of them back in turn and takes it again.
pub fn run(rt: &HostRuntime, ids: u32) -> io::Result<()> {
    let ids = ids.clamp(1, MOST_IDS);
    let start = Instant::now(rt)?;
    let last = match Table::new(rt.alloc(), ids) {
        Ok(mut table) => take_and_give(&mut table, ids),
        Err(NoMemory) => return Err(io::Error::from(io::ErrorKind::OutOfMemory)),
    };
    let last = last.ok_or(io::Error::from(io::ErrorKind::Other))?;
    let millis = start.elapsed(rt)?.as_millis();
    println!(rt; "ids: {ids}, each taken, given and taken again; the last: {last}")?;
    eprintln!(rt; "milliseconds: {millis}")?;
    Ok(())
}
