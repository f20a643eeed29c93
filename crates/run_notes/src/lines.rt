ghost use Rattle.std.specs.Prelude.{◌≡◌, ◌++◌, ◌==◌, [], length, not, reverse, take_while, IfOk, OnOk};
ghost use Rattle.run_notes.specs.Lines.{column_at, fault_line, kind_name, kind_number, line_at, place_text, refusal_line};

use crate::codes::{line_of_bad_code, line_of_unsafe_code};
use crate::status::Status;
use ak_words::NoMemory;
use c_lex::Kind;
use itoa::{Buffer, Integer};
use std::alloc::Global;

/// The line of the text that a place stands in, from 1.
pub fn line_number(text: &[u8], place: usize) -> usize
    ensures { result ≡ line_at text.now place }
{
    let before = &text[..place.min(text.len())];
    before.iter().filter(|byte| **byte == b'\n').count() + 1
}

// How many bytes stand behind the last line feed, or all of them where there is none.
fn tail_len(bytes: &[u8]) -> usize
    ensures { result ≡ length (take_while (λ byte. not (byte == 10)) (reverse bytes.now)) }
{
    bytes
        .iter()
        .rev()
        .take_while(|byte| **byte != b'\n')
        .count()
}

/// Where in its line a place stands, in bytes from 1.
pub fn column_number(text: &[u8], place: usize) -> usize
    ensures { result ≡ column_at text.now place }
{
    tail_len(&text[..place.min(text.len())]) + 1
}

/// Writes a number at the end of a line.
pub fn push_number<I: Integer>(line: &mut Vec<u8>, number: I) -> Result<(), NoMemory>
    ensures { OnOk result (line.new.items ≡ line.old.items ++ I.text number) }
{
    let mut buffer = Buffer::new();
    line.extend_from_slice(buffer.format(number).as_bytes())?;
    Ok(())
}

// The name of a kind of refusal.
fn name_of_kind(kind: Kind) -> &'static [u8]
    ensures { result.now ≡ kind_name kind }
{
    match kind {
        Kind::BadByte => b"BadByte",
        Kind::OpenLiteral => b"OpenLiteral",
        Kind::NumberTooWide => b"NumberTooWide",
        Kind::UnexpectedToken => b"UnexpectedToken",
        Kind::TooDeep => b"TooDeep",
        Kind::UnknownName => b"UnknownName",
        Kind::DoubleName => b"DoubleName",
        Kind::TypeMismatch => b"TypeMismatch",
        Kind::NotAnLvalue => b"NotAnLvalue",
        Kind::BadSize => b"BadSize",
        Kind::OutsideSubset(_) => b"OutsideSubset",
        Kind::TooLong => b"TooLong",
        Kind::TooMany(_) => b"TooMany",
    }
}

// Writes the number of a kind of refusal, where it has one, with a blank before it.
fn push_number_of_kind(line: &mut Vec<u8>, kind: Kind) -> Result<(), NoMemory>
    ensures { OnOk result (line.new.items ≡ line.old.items ++ kind_number kind) }
{
    match kind {
        Kind::OutsideSubset(number) | Kind::TooMany(number) => {
            line.push(b' ')?;
            push_number(line, number)
        }
        _ => Ok(()),
    }
}

/// A place of a text, as the head of a line: the file, the line and the column.
pub fn line_at_place(
    alloc: Global,
    name: &str,
    text: &[u8],
    place: u32,
) -> Result<Vec<u8>, NoMemory>
    ensures { IfOk result (λ line. line.items ≡ place_text name.now text.now place) }
{
    let mut line = Vec::from_slice(alloc, name.as_bytes())?;
    line.extend_from_slice(b":")?;
    push_number(&mut line, line_number(text, place as usize))?;
    line.extend_from_slice(b":")?;
    push_number(&mut line, column_number(text, place as usize))?;
    line.extend_from_slice(b": ")?;
    Ok(line)
}

// The line of a refusal: its place, and its kind.
fn line_of_refusal(
    alloc: Global,
    name: &str,
    text: &[u8],
    place: u32,
    kind: Kind,
) -> Result<Vec<u8>, NoMemory>
    ensures { IfOk result (λ line. line.items ≡ refusal_line name.now text.now place kind) }
{
    let mut line = line_at_place(alloc, name, text, place)?;
    line.extend_from_slice(b"refused: ")?;
    line.extend_from_slice(name_of_kind(kind))?;
    push_number_of_kind(&mut line, kind)?;
    line.push(b'\n')?;
    Ok(line)
}

// The line of a file that couldn't be read.
fn line_of_read_fault(alloc: Global, name: &str) -> Result<Vec<u8>, NoMemory>
    ensures { IfOk result (λ line. line.items ≡ fault_line name.now [] Status.ReadFault) }
{
    let mut line = Vec::from_slice(alloc, b"alaska: can't read ")?;
    line.extend_from_slice(name.as_bytes())?;
    line.push(b'\n')?;
    Ok(line)
}

// The line of a file that has more bytes than a code file may have.
fn line_of_long_file(alloc: Global, name: &str) -> Result<Vec<u8>, NoMemory>
    ensures { IfOk result (λ line. line.items ≡ fault_line name.now [] Status.FileTooLong) }
{
    let mut line = Vec::from_slice(alloc, name.as_bytes())?;
    line.extend_from_slice(b": too long\n")?;
    Ok(line)
}

/// The line that is written to note where no run began, by the status, and by the name and the text of the file. A run that ended has a report in its
/// place, a check and code that was built have a line of their own, and a fault of writing has none.
pub fn fault_line(
    alloc: Global,
    name: &str,
    text: &[u8],
    status: Status,
) -> Result<Vec<u8>, NoMemory>
    ensures { IfOk result (λ line. line.items ≡ fault_line name.now text.now status) }
{
    match status {
        Status::Usage => Ok(Vec::from_slice(alloc, b"usage: alaska FILE [options]\n")?),
        Status::Refused(place, kind) => line_of_refusal(alloc, name, text, place, kind),
        Status::ReadFault => line_of_read_fault(alloc, name),
        Status::NoMemory => Ok(Vec::from_slice(alloc, b"alaska: out of memory\n")?),
        Status::CodeTooDeep => Ok(Vec::from_slice(alloc, b"alaska: code too deep\n")?),
        Status::CodeTooLong => Ok(Vec::from_slice(alloc, b"alaska: code too long\n")?),
        Status::BadCode(at) => line_of_bad_code(alloc, name, at),
        Status::UnsafeCode { place, why } => line_of_unsafe_code(alloc, name, place, why),
        Status::FileTooLong => line_of_long_file(alloc, name),
        _ => Ok(Vec::new(alloc)),
    }
}
