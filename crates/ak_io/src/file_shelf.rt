//! The shelf of real files.
ghost use Rattle.std.specs.Prelude.{◌≡◌, ◌<◌, ◌≤◌, ℕ, None, length, take, IfSome, IfOk, OnOk, OnErr};
ghost use Rattle.std.specs.Io.KnownBytes.{Consumes, IsAtEnd};
ghost use Rattle.ak_io.specs.Faults.{Rose, raised};
ghost use Rattle.ak_io.specs.ReadEnd.{FitsIn, IsReadOf};

use crate::{ReadEnd, ReadFault, Shelf};
use std::fs;
use std::io::{ErrorKind, Read};
use std::marker::Model;
use std::rt::Files;

/// The real files, named by their paths. It keeps one count of faults, which is that of every name, and
/// tells no bytes. A folder, a missing file and one that may not be read are failed reads.
#[derive(Debug, Drop)]
pub struct FileShelf<R> {
    rt: R,
    faults: u64,
}

impl<R> Model for FileShelf<R> {
    ghost Value = { ℕ };

    ghost view = { λ shelf. shelf.faults };
}

impl<R: Files> FileShelf<R> {
    /// The files that `rt` reaches, with no fault yet. It takes no memory.
    pub fn new(rt: R) -> FileShelf<R>
        ensures { result ≡ 0 }
    {
        FileShelf { rt, faults: 0 }
    }
}

impl<R: Files> Shelf for FileShelf<R> {
    ghost contents = { λ _ _. None };

    ghost faults = { λ count _. count };

    /// Each failure raises the count by one, up to its last value.
    fn read(&mut self, name: &str, into: &mut [u8]) -> Result<ReadEnd, ReadFault>
        ensures fits { IfOk result (FitsIn into.new) }
        ensures cause { OnErr result (Rose self.old self.new) }
        ensures steady { OnOk result (self.new ≡ self.old) }
        ensures counts { self.old ≤ self.new }
        ensures raised { OnErr result (self.new ≡ raised self.old) }
    {
        let outcome = read_path(&self.rt, name, into);
        if outcome.is_err() {
            self.faults = self.faults.saturating_add(1);
        }
        outcome
    }
}

/// Opens the file of that path and reads it.
fn read_path<R: Files>(rt: &R, path: &str, into: &mut [u8]) -> Result<ReadEnd, ReadFault>
    ensures fits { IfOk result (FitsIn into.new) }
{
    match fs::open(rt, path) {
        Ok(mut file) => read_whole(&mut file, into),
        Err(_) => Err(ReadFault),
    }
}

/// Reads a file to its end, or until the buffer is full, and then finds out whether more bytes follow.
fn read_whole<F: Read>(file: &mut F, into: &mut [u8]) -> Result<ReadEnd, ReadFault>
    ensures fits { IfOk result (FitsIn into.new) }
    ensures told { IfSome (F.remaining file.old) (λ bytes. IfOk result (IsReadOf bytes into.new)) }
{
    let filled = fill(file, into)?;
    if filled < into.len() || read_some(file, &mut [0u8; 1])? == 0 {
        Ok(ReadEnd::Whole(filled))
    } else {
        Ok(ReadEnd::TooLong)
    }
}

/// Reads until the buffer is full or the file ends, and says how many bytes came.
fn fill<F: Read>(file: &mut F, into: &mut [u8]) -> Result<usize, ReadFault>
    ensures fits { IfOk result (λ filled. filled ≤ length into.new) }
    ensures bytes { IfOk result (λ filled.
        Consumes (F.remaining file.old) (F.remaining file.new) (take filled into.new)) }
    ensures end { IfOk result (λ filled. filled < length into.new → IsAtEnd (F.remaining file.new)) }
{
    let mut filled = 0;
    'filling: while filled < into.len() {
        let count = read_some(file, &mut into[filled..])?;
        if count == 0 {
            break 'filling;
        }
        filled += count;
    }
    Ok(filled)
}

/// One read, made again where a signal interrupts it.
fn read_some<F: Read>(file: &mut F, into: &mut [u8]) -> Result<usize, ReadFault>
    ensures fits { IfOk result (λ count. count ≤ length into.new) }
    ensures bytes { IfOk result (λ count.
        Consumes (F.remaining file.old) (F.remaining file.new) (take count into.new)) }
    ensures end { IfOk result (λ count. count ≡ 0 → 0 < length into.new → IsAtEnd (F.remaining file.new)) }
{
    'interrupted: for _ in 0..u64::MAX {
        match file.read(into) {
            Ok(count) => return Ok(count),
            Err(error) if error.kind() == ErrorKind::Interrupted => {}
            Err(_) => return Err(ReadFault),
        }
    }
    Err(ReadFault)
}
