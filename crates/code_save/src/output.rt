//! The bytes of a file while it is written, or while they are only counted.

ghost use Rattle.std.specs.Prelude.{◌≡◌, ◌++◌, [], List, ℕ, IfOk, OnOk, true, vec_capacity};
ghost use Rattle.code_save.specs.inner.Written.{Holds, Gains, Measured, Finished};

use crate::fault::SaveFault;
use ak_words::NoMemory;
use std::alloc::Global;

const MOST_FILE_BYTES: usize = 67_108_864;

/// What was written so far, up to the most that a file may have.
#[derive(Drop)]
pub struct Output {
    bytes: Vec<u8>,
    count: usize,
    keeps: bool,
}

impl Output {
    /// Nothing; what is written to it is counted and not kept.
    pub fn counting(alloc: Global) -> Output
        ensures { Holds result [] }
    {
        Output {
            bytes: Vec::new(alloc),
            count: 0,
            keeps: false,
        }
    }

    /// Nothing, with the memory for so many bytes, which are kept.
    pub fn keeping(alloc: Global, length: usize) -> Result<Output, NoMemory>
        ensures empty { IfOk result (λ out. Holds out []) }
        ensures keeps { IfOk result (λ out. out.keeps ≡ true) }
    {
        Ok(Output {
            bytes: Vec::with_capacity(alloc, length)?,
            count: 0,
            keeps: true,
        })
    }

    /// Writes these bytes; from where a file would be too long on, none are counted or kept.
    pub fn put(&mut self, bytes: &[u8]) -> Result<(), NoMemory>
        ensures { OnOk result (Gains self.old bytes.now self.new) }
    {
        if self.count > MOST_FILE_BYTES {
            return Ok(());
        }
        self.count += bytes.len();
        if self.keeps && self.count <= MOST_FILE_BYTES {
            self.bytes.extend_from_slice(bytes)?;
        }
        Ok(())
    }

    /// How many bytes were written, unless they are too many.
    pub fn length(&self) -> Option<usize>
        ensures { (written : List ℕ) → Holds self.now written → Measured written result }
    {
        if self.count > MOST_FILE_BYTES {
            return None;
        }
        Some(self.count)
    }

    /// The bytes, unless they are too many.
    pub fn finish(self) -> Result<Vec<u8>, SaveFault>
        requires { self.keeps ≡ true }
        ensures { (written : List ℕ) → Holds self written → Finished written result }
    {
        if self.count > MOST_FILE_BYTES {
            return Err(SaveFault::TooLong);
        }
        Ok(self.bytes)
    }
}
