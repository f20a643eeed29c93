ghost use Rattle.std.specs.Prelude.{◌≡◌, ◌≤◌, IfOk};
ghost use Rattle.run_edges.specs.Files.{shelved};
ghost use Rattle.run_edges.specs.Reading.{IsReadFrom};

use ak_io::{ReadEnd, ReadFault, Shelf};
use ak_words::NoMemory;
use std::alloc::Global;

/// The most bytes that a C text may have.
pub const MOST_BYTES: usize = 1_048_576;

/// The most bytes that a code file may have.
pub const MOST_FILE_BYTES: usize = 67_108_864;

// As many bytes as most code files have at most.
const USUAL_BYTES: usize = 8_388_608;

/// What came of reading a file.
#[derive(Drop)]
pub enum TextRead {
    /// All of the file.
    Whole(Vec<u8>),
    /// The first bytes of a file that has more than were wanted.
    Front(Vec<u8>),
    /// The read failed.
    Fault,
}

// Reads a file from the shelf by one call, into memory for as many bytes as are wanted.
fn read_once<F: Shelf>(
    alloc: Global,
    shelf: &mut F,
    name: &str,
    most: usize,
) -> Result<TextRead, NoMemory>
    ensures read { IfOk result (IsReadFrom most (shelved F.contents F.faults shelf.old shelf.new name.now)) }
    ensures counts { F.faults shelf.old name.now ≤ F.faults shelf.new name.now }
    ensures contents { F.contents shelf.new name.now ≡ F.contents shelf.old name.now }
{
    let mut text = vec![in alloc; 0u8; most]?;
    match shelf.read(name, &mut text) {
        Ok(ReadEnd::Whole(count)) => {
            text.truncate(count);
            Ok(TextRead::Whole(text))
        }
        Ok(ReadEnd::TooLong) => Ok(TextRead::Front(text)),
        Err(ReadFault) => Ok(TextRead::Fault),
    }
}

// Reads a file that is longer than a C text: memory for more than most code files have is taken only where it is longer than these.
fn read_long<F: Shelf>(
    alloc: Global,
    shelf: &mut F,
    name: &str,
    most: usize,
) -> Result<TextRead, NoMemory>
    ensures { IfOk result (IsReadFrom most (shelved F.contents F.faults shelf.old shelf.new name.now)) }
{
    match read_once(alloc, shelf, name, most.min(USUAL_BYTES))? {
        TextRead::Front(_) if USUAL_BYTES < most => read_once(alloc, shelf, name, most),
        read => Ok(read),
    }
}

/// Reads the file of that name from the shelf, or its first `most` bytes where it has more. Memory for more than a C text is taken only where
/// the file is longer than one may be.
pub fn read_text<F: Shelf>(
    alloc: Global,
    shelf: &mut F,
    name: &str,
    most: usize,
) -> Result<TextRead, NoMemory>
    ensures { IfOk result (IsReadFrom most (shelved F.contents F.faults shelf.old shelf.new name.now)) }
{
    match read_once(alloc, shelf, name, most.min(MOST_BYTES))? {
        TextRead::Front(_) if MOST_BYTES < most => read_long(alloc, shelf, name, most),
        read => Ok(read),
    }
}
