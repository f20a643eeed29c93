//! A shelf in memory.
ghost use Rattle.std.specs.Prelude.{◌≡◌, ◌<◌, ◌≤◌, ◌↔◌, ℕ, List, [], length, slice_index_or, replicate, vec_len, string_bytes, position, IfSome, IfOk, OnOk, OnErr, IsErr};
ghost use Rattle.std.specs.Str.{bytes_eq};
ghost use Rattle.ak_io.specs.Faults.{Rose};
ghost use Rattle.ak_io.specs.ReadEnd.{FitsIn, IsReadOf, KeepsRest};
ghost use Rattle.ak_io.specs.Calls.{none_made};
ghost use Rattle.ak_io.specs.MemShelf.{files_of, place_of};

use crate::calls::Calls;
use crate::{ReadEnd, ReadFault, Shelf};
use ak_words::NoMemory;
use std::alloc::Global;
use std::marker::Model;

/// A shelf of files in memory. It fails the calls whose numbers it was given, from 1, and those for a
/// name that it doesn't hold. Of two files of one name the first counts.
#[derive(Debug, Drop)]
pub struct MemShelf {
    files: Vec<(String, Vec<u8>)>,
    counts: Vec<u64>,
    others: u64,
    calls: Calls,
}

impl Model for MemShelf {
    ghost use Rattle.std.specs.Prelude.{◌≡◌, vec_len};
    ghost use Rattle.ak_io.specs.MemShelf.{Files, files_of};

    ghost Value = { Files };

    ghost view = { λ shelf. record {
      files = files_of shelf.files.items;
      counts = shelf.counts.items;
      others = shelf.others;
      calls = shelf.calls;
    } };

    ghost invariant = { λ shelf. vec_len shelf.counts ≡ vec_len shelf.files };
}

impl MemShelf {
    /// A shelf of these files, each a name and its bytes.
    ///
    /// # Errors
    ///
    /// `NoMemory` where there is none for the counts of faults.
    pub fn new(
        alloc: Global,
        files: Vec<(String, Vec<u8>)>,
        failing: Vec<u32>,
    ) -> Result<MemShelf, NoMemory>
        ensures { IfOk result (λ shelf. shelf ≡ record {
          files = files_of files.items;
          counts = replicate (vec_len files) 0;
          others = 0;
          calls = none_made failing.items;
        }) }
    {
        let counts = vec![in alloc; 0; files.len()]?;
        Ok(MemShelf {
            files,
            counts,
            others: 0,
            calls: Calls::new(failing),
        })
    }

    /// The place of the first file of that name.
    fn place(&self, name: &str) -> Option<usize>
        ensures place { result ≡ place_of self.now.files name.now }
        ensures within { IfSome result (λ place. (place < length self.now.files) × (place < length self.now.counts)) }
    {
        first_named(&self.files, name)
    }

    /// The bytes of the file at that place.
    fn bytes_at(&self, place: usize) -> &[u8]
        requires { place < length self.now.files }
        ensures { result.now ≡ (slice_index_or self.now.files place ([], [])).1 }
    {
        &self.files[place].1
    }
}

impl Shelf for MemShelf {
    ghost use Rattle.ak_io.specs.MemShelf.{bytes_of, faults_of, ReadFails, after_read, with_read_fault};

    ghost contents = { bytes_of };

    ghost faults = { faults_of };

    /// A call that fails changes no bytes.
    fn read(&mut self, name: &str, into: &mut [u8]) -> Result<ReadEnd, ReadFault>
        ensures fits { IfOk result (FitsIn into.new) }
        ensures told { IfSome (bytes_of self.old name.now) (λ bytes. IfOk result (IsReadOf bytes into.new)) }
        ensures too_long { IfSome (bytes_of self.old name.now) (λ bytes.
            OnOk result ((result ≡ Ok ReadEnd.TooLong) ↔ (length into.new < length bytes))) }
        ensures cause { OnErr result (Rose (faults_of self.old name.now) (faults_of self.new name.now)) }
        ensures steady { OnOk result ((other : List ℕ) → faults_of self.new other ≡ faults_of self.old other) }
        ensures counts { (other : List ℕ) → faults_of self.old other ≤ faults_of self.new other }
        ensures contents { (other : List ℕ) → bytes_of self.new other ≡ bytes_of self.old other }

        // Exactly when it fails, and all that it leaves.
        ensures fails { IsErr result ↔ ReadFails self.old name.now }
        ensures read { OnOk result (self.new ≡ after_read self.old) }
        ensures failed { OnErr result (self.new ≡ with_read_fault self.old name.now) }
        ensures rest { IfOk result (KeepsRest into.old into.new) }
        ensures untouched { OnErr result (into.new ≡ into.old) }
    {
        let place = self.place(name);
        let is_listed = self.calls.next_fails();
        match place {
            Some(place) if is_listed => {
                self.counts[place] = self.counts[place].saturating_add(1);
                Err(ReadFault)
            }
            Some(place) => Ok(copy_front(self.bytes_at(place), into)),
            None => {
                self.others = self.others.saturating_add(1);
                Err(ReadFault)
            }
        }
    }
}

/// The place of the first file of that name.
fn first_named(files: &[(String, Vec<u8>)], name: &str) -> Option<usize>
    ensures { result ≡ position (λ file. bytes_eq (string_bytes file.0) name.now) files.now }
{
    files.iter().position(|file| is_named(file, name))
}

/// Whether the file has that name.
fn is_named(file: &(String, Vec<u8>), name: &str) -> bool
    ensures { result ≡ bytes_eq (string_bytes file.now.0) name.now }
{
    file.0.as_str() == name
}

/// Puts the bytes at the front of the buffer, as far as they fit.
fn copy_front(bytes: &[u8], into: &mut [u8]) -> ReadEnd
    ensures read { IsReadOf bytes.now into.new result }
    ensures rest { KeepsRest into.old into.new result }
{
    if bytes.len() <= into.len() {
        into[..bytes.len()].copy_from_slice(bytes);
        ReadEnd::Whole(bytes.len())
    } else {
        into.copy_from_slice(&bytes[..into.len()]);
        ReadEnd::TooLong
    }
}
