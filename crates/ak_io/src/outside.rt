//! What the program asks of the world outside: files by name, and a place to write to.
ghost use Rattle.std.specs.Prelude.{◌≡◌, ◌<◌, ◌≤◌, ◌↔◌, ℕ, List, Option, length, IfSome, IfOk, OnOk, OnErr};
ghost use Rattle.ak_io.specs.Faults.{Rose};
ghost use Rattle.ak_io.specs.Bytes.{grown, GrewByPrefix};

use thiserror::Error;

/// How a read ended.
#[derive(Clone, Copy, Debug, PartialEq, Eq)]
pub enum ReadEnd {
    /// The file was read to its end. It has this many bytes, and they stand at the front of the buffer.
    Whole(usize),
    /// The file has more bytes than the buffer, which holds the first of them.
    TooLong,
}

/// A read that failed.
#[derive(Clone, Copy, Debug, PartialEq, Eq, Hash, Error)]
#[error("a read failed")]
pub struct ReadFault;

/// A write that failed.
#[derive(Clone, Copy, Debug, PartialEq, Eq, Hash, Error)]
#[error("a write failed")]
pub struct WriteFault;

/// Files that are read by name. Only a read can raise a count of faults.
pub trait Shelf {
    ghost use Rattle.ak_io.specs.ReadEnd.{FitsIn, IsReadOf};

    /// The bytes of the file of that name, where the shelf tells them.
    ghost contents: { Self → List ℕ → Option (List ℕ) };

    /// How many reads of that name have failed: a count that stays once it stands at `u64::MAX`.
    ghost faults: { Self → List ℕ → ℕ };

    /// Reads the file of that name from its start, as far as the buffer goes. A name that the shelf
    /// doesn't hold is a failed read. Nothing is said of the buffer behind the end of the file, nor of
    /// any of it after a fault.
    ///
    /// # Errors
    ///
    /// `ReadFault` where the read failed, which the count of the name shows.
    fn read(&mut self, name: &str, into: &mut [u8]) -> Result<ReadEnd, ReadFault>
        ensures fits { IfOk result (FitsIn into.new) }
        ensures told { IfSome (contents self.old name.now) (λ bytes. IfOk result (IsReadOf bytes into.new)) }
        ensures too_long { IfSome (contents self.old name.now) (λ bytes.
            OnOk result ((result ≡ Ok ReadEnd.TooLong) ↔ (length into.new < length bytes))) }

        // A fault comes only where the count of the name rose, and no success raises a count.
        ensures cause { OnErr result (Rose (faults self.old name.now) (faults self.new name.now)) }
        ensures steady { OnOk result ((other : List ℕ) → faults self.new other ≡ faults self.old other) }
        ensures counts { (other : List ℕ) → faults self.old other ≤ faults self.new other }

        ensures contents { (other : List ℕ) → contents self.new other ≡ contents self.old other };
}

/// A place to write to. Only a write can raise its count of faults.
pub trait Sink {
    /// The bytes that it holds, where it tells them.
    ghost contents: { Self → Option (List ℕ) };

    /// How many writes have failed: a count that stays once it stands at `u64::MAX`.
    ghost faults: { Self → ℕ };

    /// Writes all of the bytes, one or more, behind those that it holds.
    ///
    /// # Errors
    ///
    /// `WriteFault` where the write failed, which the count shows. Some first part of the bytes may have
    /// been written.
    fn write_all(&mut self, bytes: &[u8]) -> Result<(), WriteFault>
        requires { 0 < length bytes.now }
        ensures ok { OnOk result (contents self.new ≡ grown (contents self.old) bytes.now) }
        ensures err { OnErr result (GrewByPrefix (contents self.old) (contents self.new) bytes.now) }

        // A fault comes only where the count rose, and no success raises it.
        ensures cause { OnErr result (Rose (faults self.old) (faults self.new)) }
        ensures steady { OnOk result (faults self.new ≡ faults self.old) }
        ensures count { faults self.old ≤ faults self.new };
}
