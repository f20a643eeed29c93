//! Which bytes the last action reached that was done.

ghost use Rattle.std.specs.Prelude.{◌≡◌, ◌++◌, [], IfOk, OnOk, map};
ghost use Rattle.block_store.specs.Actions.{went, with_reached, bytes_at, reading, writing};
ghost use Rattle.source_state.specs.Worlds.{world_of, done_of, reached_of, Untouched};

use crate::world::{Done, Reached, World};
use ak_words::NoMemory;
use block_store::{Ptr, Value};

impl World {
    // What is done, and reaches no byte.
    pub(crate) fn went(&mut self, value: Option<Value>) -> Done
        ensures { done_of result (world_of self.new) ≡ went value (with_reached (world_of self.old) []) }
    {
        self.reached.clear();
        Done::Went(value)
    }

    // What is done, and reads bytes.
    pub(crate) fn went_reading(
        &mut self,
        value: Option<Value>,
        at: Ptr,
        bytes: u64,
    ) -> Result<Done, NoMemory>
        ensures done { IfOk result (λ done. done_of done (world_of self.new) ≡ went value (with_reached (world_of self.old) (reading bytes at ++ []))) }
        ensures untouched { IfOk result (λ done. Untouched done self.old self.new) }
    {
        self.reached.clear();
        note(&mut self.reached, at, bytes, false)?;
        Ok(Done::Went(value))
    }

    // What is done, and writes bytes.
    pub(crate) fn went_writing(
        &mut self,
        value: Option<Value>,
        at: Ptr,
        bytes: u64,
    ) -> Result<Done, NoMemory>
        ensures done { IfOk result (λ done. done_of done (world_of self.new) ≡ went value (with_reached (world_of self.old) (writing bytes at))) }
        ensures untouched { IfOk result (λ done. Untouched done self.old self.new) }
    {
        self.reached.clear();
        note(&mut self.reached, at, bytes, true)?;
        Ok(Done::Went(value))
    }

    // What is done, and reads bytes and then writes as many, there or elsewhere.
    pub(crate) fn went_both(
        &mut self,
        value: Option<Value>,
        from: Ptr,
        to: Ptr,
        bytes: u64,
    ) -> Result<Done, NoMemory>
        ensures done { IfOk result (λ done. done_of done (world_of self.new) ≡ went value (with_reached (world_of self.old) (reading bytes from ++ writing bytes to))) }
        ensures untouched { IfOk result (λ done. Untouched done self.old self.new) }
    {
        self.reached.clear();
        note(&mut self.reached, from, bytes, false)?;
        note(&mut self.reached, to, bytes, true)?;
        Ok(Done::Went(value))
    }

    // What is done, and reads bytes at two places and then writes as many at one.
    pub(crate) fn went_comparing(
        &mut self,
        value: Option<Value>,
        at: Ptr,
        want: Ptr,
        to: Ptr,
        bytes: u64,
    ) -> Result<Done, NoMemory>
        ensures done { IfOk result (λ done. done_of done (world_of self.new) ≡ went value (with_reached (world_of self.old) ((reading bytes at ++ reading bytes want) ++ writing bytes to))) }
        ensures untouched { IfOk result (λ done. Untouched done self.old self.new) }
    {
        self.reached.clear();
        note(&mut self.reached, at, bytes, false)?;
        note(&mut self.reached, want, bytes, false)?;
        note(&mut self.reached, to, bytes, true)?;
        Ok(Done::Went(value))
    }
}

/// Bytes at a pointer are reached too, where there is one and the pointer isn't null.
pub fn note(reached: &mut Vec<Reached>, at: Ptr, bytes: u64, writes: bool) -> Result<(), NoMemory>
    ensures { OnOk result (map reached_of reached.new.items ≡ map reached_of reached.old.items ++ bytes_at writes bytes at) }
{
    if let Ptr::To { block, offset } = at {
        if bytes > 0 {
            reached.push(Reached {
                block,
                offset,
                bytes,
                writes,
            })?;
        }
    }
    Ok(())
}
