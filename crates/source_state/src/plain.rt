//! The actions that give one value or none, and change blocks alone.

ghost use Rattle.std.specs.Prelude.{◌≡◌, ◌≤◌, ◌/◌, ◌^◌, ◌++◌, [], ℕ, Bool, IfOk, OnOk, map, Ok, pos};
ghost use Rattle.ak_words.specs.IntType.{int};
ghost use Rattle.ak_words.specs.Num.{num};
ghost use Rattle.ak_words.specs.Op.{truth};
ghost use Rattle.block_store.specs.declared.values.Value.TheVariants as values;
ghost use Rattle.block_store.specs.declared.values.Ptr.{Ptr};
ghost use Rattle.block_store.specs.Atomics.{changed, compared};
ghost use Rattle.block_store.specs.Blocks.{loaded, stored, copied, freed};
ghost use Rattle.block_store.specs.Mutexes.{locked, unlocked, destroyed};
ghost use Rattle.block_store.specs.Cells.{size_of, access_of};
ghost use Rattle.block_store.specs.Texts.{text_at};
ghost use Rattle.block_store.specs.Actions.{gives, changes, changes_number, compares, compare_writes, changes_or_waits, passes, prints, all_bytes, joined_bytes, printed_bytes, telling, reading, writing, reading_text, reading_part, reading_parts};
ghost use Rattle.block_store.specs.Undo.{appended};
ghost use Rattle.source_state.specs.Worlds.{world_of, done_of, printed_of, reached_of, Untouched};

use crate::reached::note;
use crate::world::{Done, Printed, Reached, World};
use ak_words::{IntType, NoMemory, Num, Rule};
use block_store::{Access, Change, LockEnd, Ptr, Value};
use std::alloc::Global;

impl World {
    // Reads a value.
    pub(crate) fn load(&mut self, at: Ptr, how: Access) -> Result<Done, NoMemory>
        ensures done { IfOk result (λ done. done_of done (world_of self.new) ≡ telling (reading (size_of how) at ++ []) (gives (world_of self.old) (loaded (world_of self.old).blocks at how))) }
        ensures untouched { IfOk result (λ done. Untouched done self.old self.new) }
    {
        match self.store.store().load(at, how) {
            Ok(v) => self.went_reading(Some(v), at, u64::from(how.size())),
            Err(rule) => Ok(Done::Broke(rule)),
        }
    }

    // Writes a value.
    pub(crate) fn store_value(&mut self, at: Ptr, v: Value) -> Result<Done, NoMemory>
        ensures done { IfOk result (λ done. done_of done (world_of self.new) ≡ telling (writing (size_of (access_of v)) at) (changes (world_of self.old) (stored (world_of self.old).blocks at v))) }
        ensures untouched { IfOk result (λ done. Untouched done self.old self.new) }
    {
        match self.store.store_value(at, v) {
            Ok(()) => self.went_writing(None, at, u64::from(v.access().size())),
            Err(rule) => Ok(Done::Broke(rule)),
        }
    }

    // Copies bytes. An alignment of 0, which no type has, is answered as want of memory.
    pub(crate) fn copy(
        &mut self,
        to: Ptr,
        from: Ptr,
        n: u128,
        align: u32,
        same: bool,
    ) -> Result<Done, NoMemory>
        ensures done { IfOk result (λ done. done_of done (world_of self.new) ≡ telling (reading n from ++ writing n to) (changes (world_of self.old) (copied (world_of self.old).blocks to from n align same))) }
        ensures untouched { IfOk result (λ done. Untouched done self.old self.new) }
    {
        if align == 0 {
            return Err(NoMemory);
        }
        if n >= 4_294_967_296 {
            return Ok(self.copy_beyond(to));
        }
        match self.store.copy(to, from, n as u32, align, same) {
            Ok(()) => self.went_both(None, from, to, n as u64),
            Err(rule) => Ok(Done::Broke(rule)),
        }
    }

    // Frees a block.
    pub(crate) fn free(&mut self, at: Ptr) -> Done
        ensures done { done_of result (world_of self.new) ≡ telling [] (changes (world_of self.old) (freed (world_of self.old).blocks at)) }
        ensures untouched { Untouched result self.old self.new }
    {
        match self.store.free(at) {
            Ok(()) => self.went(None),
            Err(rule) => Done::Broke(rule),
        }
    }

    // Changes a number, and gives the old one.
    pub(crate) fn change(&mut self, at: Ptr, how: Change, by: Num) -> Result<Done, NoMemory>
        ensures done { IfOk result (λ done. done_of done (world_of self.new) ≡ telling (reading (by.ty.bits / 8) at ++ writing (by.ty.bits / 8) at) (changes_number (world_of self.old) (changed (world_of self.old).blocks at by.ty how by.value))) }
        ensures untouched { IfOk result (λ done. Untouched done self.old self.new) }
    {
        match self.store.change(at, how, by) {
            Ok(old) => self.went_both(Some(Value::Num(old)), at, at, u64::from(by.ty.bits / 8)),
            Err(rule) => Ok(Done::Broke(rule)),
        }
    }

    // Compares two numbers: the first becomes another where they are equal, and else the second becomes the first.
    pub(crate) fn compare(&mut self, at: Ptr, want: Ptr, new: Num) -> Result<Done, NoMemory>
        ensures done { IfOk result (λ done. done_of done (world_of self.new) ≡ telling ((reading (new.ty.bits / 8) at ++ reading (new.ty.bits / 8) want) ++ compare_writes at want new.ty (compared (world_of self.old).blocks at want new.ty new.value)) (compares (world_of self.old) (compared (world_of self.old).blocks at want new.ty new.value))) }
        ensures untouched { IfOk result (λ done. Untouched done self.old self.new) }
    {
        let bytes = u64::from(new.ty.bits / 8);
        match self.store.compare(at, want, new) {
            Ok(equal) => {
                let to = if equal { at } else { want };
                self.went_comparing(Some(truth_value(equal)), at, want, to, bytes)
            }
            Err(rule) => Ok(Done::Broke(rule)),
        }
    }

    // Takes a mutex.
    pub(crate) fn lock(&mut self, at: Ptr, thread: u32) -> Result<Done, NoMemory>
        ensures done { IfOk result (λ done. done_of done (world_of self.new) ≡ telling (reading 8 at ++ writing 8 at) (changes_or_waits (world_of self.old) (locked (world_of self.old).blocks at thread))) }
        ensures untouched { IfOk result (λ done. Untouched done self.old self.new) }
    {
        match self.store.lock(at, thread) {
            Ok(LockEnd::Got) => self.went_both(None, at, at, 8),
            Ok(LockEnd::Held) => Ok(Done::Blocked),
            Err(rule) => Ok(Done::Broke(rule)),
        }
    }

    // Sets a mutex free.
    pub(crate) fn unlock(&mut self, at: Ptr, thread: u32) -> Result<Done, NoMemory>
        ensures done { IfOk result (λ done. done_of done (world_of self.new) ≡ telling (reading 8 at ++ writing 8 at) (changes (world_of self.old) (unlocked (world_of self.old).blocks at thread))) }
        ensures untouched { IfOk result (λ done. Untouched done self.old self.new) }
    {
        match self.store.unlock(at, thread) {
            Ok(()) => self.went_both(None, at, at, 8),
            Err(rule) => Ok(Done::Broke(rule)),
        }
    }

    // Sees whether a mutex may be destroyed.
    pub(crate) fn destroy(&mut self, at: Ptr) -> Result<Done, NoMemory>
        ensures done { IfOk result (λ done. done_of done (world_of self.new) ≡ telling (reading 8 at ++ []) (passes (world_of self.old) (destroyed (world_of self.old).blocks at))) }
        ensures untouched { IfOk result (λ done. Untouched done self.old self.new) }
    {
        match self.store.store().may_destroy(at) {
            Ok(()) => self.went_reading(None, at, 8),
            Err(rule) => Ok(Done::Broke(rule)),
        }
    }

    // Prints all parts, or none.
    pub(crate) fn print(&mut self, alloc: Global, parts: &[Printed]) -> Result<Done, NoMemory>
        ensures done { IfOk result (λ done. done_of done (world_of self.new) ≡ telling (reading_parts (world_of self.old).blocks (map printed_of parts.now) ++ []) (prints (world_of self.old) (all_bytes (world_of self.old).blocks (map printed_of parts.now)))) }
        ensures untouched { IfOk result (λ done. Untouched done self.old self.new) }
    {
        let mut text = Vec::new(alloc);
        let mut reached = Vec::new(alloc);
        match self.gather(parts, &mut text, &mut reached)? {
            Ok(()) => {
                let count = int_count(text.len());
                self.output.extend_from_slice(&text)?;
                self.reached.clear();
                self.reached.extend_from_slice(&reached)?;
                Ok(Done::Went(Some(count)))
            }
            Err(rule) => Ok(Done::Broke(rule)),
        }
    }

    // The bytes of the parts, in order, or the first rule that one breaks; and what is read of them.
    fn gather(
        &self,
        parts: &[Printed],
        text: &mut Vec<u8>,
        reached: &mut Vec<Reached>,
    ) -> Result<Result<(), Rule>, NoMemory>
        ensures bytes { IfOk result (λ answer. appended answer text.new.items ≡ joined_bytes (Ok text.old.items) (all_bytes (world_of self.now).blocks (map printed_of parts.now))) }
        ensures reached { IfOk result (λ answer. OnOk answer (map reached_of reached.new.items ≡ map reached_of reached.old.items ++ reading_parts (world_of self.now).blocks (map printed_of parts.now))) }
    {
        'parts: for part in parts {
            match self.append(part, text, reached)? {
                Ok(()) => {}
                Err(rule) => return Ok(Err(rule)),
            }
        }
        Ok(Ok(()))
    }

    // The bytes of one part, and what is read of it.
    fn append(
        &self,
        part: &Printed,
        text: &mut Vec<u8>,
        reached: &mut Vec<Reached>,
    ) -> Result<Result<(), Rule>, NoMemory>
        ensures bytes { IfOk result (λ answer. appended answer text.new.items ≡ joined_bytes (Ok text.old.items) (printed_bytes (world_of self.now).blocks (printed_of part.now))) }
        ensures reached { IfOk result (λ answer. OnOk answer (map reached_of reached.new.items ≡ map reached_of reached.old.items ++ reading_part (world_of self.now).blocks (printed_of part.now))) }
    {
        match part {
            Printed::Bytes(bytes) => {
                text.extend_from_slice(bytes)?;
                Ok(Ok(()))
            }
            Printed::Text(at) => self.append_text(*at, text, reached),
        }
    }

    // The bytes of a text, which is read with the zero byte that ends it.
    fn append_text(
        &self,
        at: Ptr,
        text: &mut Vec<u8>,
        reached: &mut Vec<Reached>,
    ) -> Result<Result<(), Rule>, NoMemory>
        ensures bytes { IfOk result (λ answer. appended answer text.new.items ≡ joined_bytes (Ok text.old.items) (text_at (world_of self.now).blocks at)) }
        ensures reached { IfOk result (λ answer. OnOk answer (map reached_of reached.new.items ≡ map reached_of reached.old.items ++ reading_text (world_of self.now).blocks at)) }
    {
        let before = text.len();
        match self.store.store().append_text(at, text)? {
            Ok(()) => {
                note(reached, at, (text.len() - before) as u64 + 1, false)?;
                Ok(Ok(()))
            }
            Err(rule) => Ok(Err(rule)),
        }
    }

    // A copy of more bytes than any block has.
    fn copy_beyond(&self, to: Ptr) -> Done
        ensures { (from : Ptr) (n align : ℕ) (same : Bool) → 2 ^ 32 ≤ n → done_of result (world_of self.now) ≡ telling (reading n from ++ writing n to) (changes (world_of self.now) (copied (world_of self.now).blocks to from n align same)) }
    {
        match to {
            Ptr::Null => Done::Broke(Rule::C5),
            Ptr::To { block, offset: _ } => match self.store.store().live_size(block) {
                Some(_) => Done::Broke(Rule::C5),
                None => Done::Broke(Rule::C5),
            },
        }
    }
}

// 1 or 0, as an int.
fn truth_value(holds: bool) -> Value
    ensures { result ≡ values.Num (num int (truth holds)) }
{
    Value::Num(Num::int(i32::from(holds)))
}

// A count as an int, modulo 2^32.
fn int_count(n: usize) -> Value
    ensures { result ≡ values.Num (num int (pos n)) }
{
    Value::Num(number_of_type(IntType::int(), n))
}

/// A count as a number of a type.
pub fn number_of_type(ty: IntType, n: usize) -> Num
    ensures { result ≡ num ty (pos n) }
{
    Num::wrapping(ty, n as i128)
}
