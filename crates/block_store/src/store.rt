ghost use Rattle.std.specs.Prelude.{◌≡◌, ◌≢◌, ◌↔◌, ◌<◌, ◌≤◌, ◌+◌, ◌-◌, ◌^◌, [], ◌∷◌, ◌++◌, length, take, set, false, Ok, Err, Some, IfOk, OnOk, OnErr, MatchResult, IsSome, IsSomeAnd, IfSome};
ghost use Rattle.block_store.specs.inner.Copying.{is_read_late, overwritten, held};
ghost use Rattle.std.specs.Option.{option_copied};
ghost use Rattle.ak_words.specs.declared.rule.Rule.{Rule};
ghost use Rattle.block_store.specs.Cells.{size_of, access_of, cells_of, read_number};
ghost use Rattle.block_store.specs.Atomics.{writable_at, number_read, changed, old_number, store_after_change, compared, found_equal, store_after_compare};
ghost use Rattle.block_store.specs.declared.fault.StoreFault.TheVariants.{Broke};
ghost use Rattle.block_store.specs.declared.values.Access.TheVariants as accesses;
ghost use Rattle.block_store.specs.declared.values.Value.TheVariants as values;
ghost use Rattle.block_store.specs.Blocks.{is_freeable, is_heap, is_literal, live, range_at, live_size, made, made_literal, ended, freed, renewed, resized, cells_in, loaded, stored, copied, answer_of, store_after};
ghost use Rattle.block_store.specs.Mutexes.{mutex_at, locked, unlocked, destroyed, lock_end, store_after_lock};
ghost use Rattle.block_store.specs.Texts.{text_len, text_at};
ghost use Rattle.block_store.specs.Actions.{joined_bytes};
ghost use Rattle.block_store.specs.Undo.{appended};

use crate::cells::{byte_cells, cells_of, copy_inside, literal_cells, read, read_number, text_len};
use crate::fault::StoreFault;
use crate::texts::append_text;
use crate::values::{Access, BlockKind, Cell, Change, LockEnd, Ptr, Value};
use ak_words::{IntType, NoMemory, Num, Rule};
use std::alloc::Global;
use std::marker::Model;

// A live block: its cells, one a byte, and where it comes from.
#[derive(Drop)]
struct Block {
    cells: Vec<Cell>,
    kind: BlockKind,
}

impl Model for Block {
    ghost use Rattle.std.specs.Prelude.{◌<◌, ◌^◌, length};
    ghost use Rattle.block_store.specs.Blocks.{Block};

    ghost Value = { Block };

    ghost view = { λ b. record { kind = b.kind; cells = b.cells.items } };

    ghost invariant = { λ b. length b.cells.items < 2 ^ 32 };
}

// Bytes of a live block, from an offset on.
#[derive(Clone, Copy)]
struct Spot<'a> {
    name: u64,
    block: &'a Block,
    offset: u32,
}

// A mutex in a live block.
#[derive(Clone, Copy)]
struct Mutex<'a> {
    spot: Spot<'a>,
    number: u64,
}

// A place in a block, by name.
#[derive(Clone, Copy)]
struct Place {
    name: u64,
    offset: u32,
}

impl Block {
    ghost use Rattle.std.specs.Prelude.{◌+◌, ◌≤◌, ◌<◌, ◌^◌, drop, take, false};
    ghost use Rattle.block_store.specs.Blocks.{with_cells};
    ghost use Rattle.block_store.specs.inner.Copying.{is_read_late};

    fn is_heap(&self) -> bool
        ensures { result ≡ is_heap self.now.kind }
    {
        matches!(self.kind, BlockKind::Heap)
    }

    fn is_literal(&self) -> bool
        ensures { result ≡ is_literal self.now.kind }
    {
        matches!(self.kind, BlockKind::Literal)
    }

    fn size(&self) -> u32
        ensures { result ≡ length self.now.cells }
    {
        self.cells.len() as u32
    }

    fn cells(&self, offset: usize, size: usize) -> &[Cell]
        requires { offset + size ≤ length self.now.cells }
        ensures { result.now ≡ take size (drop offset self.now.cells) }
    {
        &self.cells[offset..offset + size]
    }

    fn cells_from(&self, offset: u32) -> &[Cell]
        ensures cells { result.now ≡ drop offset self.now.cells }
        ensures few { length result.now < 2 ^ 32 }
    {
        let start = self.size().min(offset);
        &self.cells[start as usize..]
    }

    fn copy(&mut self, to: usize, from: usize, n: usize)
        requires target { to + n ≤ length self.old.cells }
        requires source { from + n ≤ length self.old.cells }
        requires apart { is_read_late n to from ≡ false }
        ensures { self.new ≡ record { kind = self.old.kind; cells = with_cells self.old.cells to (take n (drop from self.old.cells)) } }
    {
        copy_inside(&mut self.cells, to, from, n);
    }

    fn write(&mut self, offset: usize, new: &[Cell])
        requires { offset + length new.now ≤ length self.old.cells }
        ensures { self.new ≡ record { kind = self.old.kind; cells = with_cells self.old.cells offset new.now } }
    {
        self.cells[offset..offset + new.len()].copy_from_slice(new);
    }
}

/// A block that was taken out of a store under its name, or none where none lived.
#[derive(Drop)]
pub struct EndedBlock {
    name: u64,
    block: Option<Block>,
}

impl Model for EndedBlock {
    ghost use Rattle.block_store.specs.Undo.{Ended};

    ghost Value = { Ended };

    ghost view = { λ e. record { name = e.name; block = e.block } };
}

impl<'a> Spot<'a> {
    ghost use Rattle.std.specs.Prelude.{◌≡◌, ◌+◌, ◌≤◌, length};
    ghost use Rattle.block_store.specs.Blocks.{cells_at, clash};

    // The cells of `size` bytes.
    fn cells(self, size: u32) -> &'a [Cell]
        requires { self.offset + size ≤ length self.block.now.cells }
        ensures { result.now ≡ cells_at size (record { name = self.entry.name; block = self.entry.block.now; offset = self.entry.offset }) }
    {
        self.block.cells(self.offset as usize, size as usize)
    }

    // The number of a type that these bytes are.
    fn number(self, ty: IntType) -> Result<Num, Rule>
        requires { self.offset + size_of (accesses.Number ty) ≤ length self.block.now.cells }
        ensures { MatchResult result (λ n. number_read ty (record { name = self.entry.name; block = self.entry.block.now; offset = self.entry.offset }) (read_number (cells_at (size_of (accesses.Number ty)) (record { name = self.entry.name; block = self.entry.block.now; offset = self.entry.offset }))) ≡ Ok (record { spot = record { name = self.entry.name; block = self.entry.block.now; offset = self.entry.offset }; value = n })) (λ rule. read_number (cells_at (size_of (accesses.Number ty)) (record { name = self.entry.name; block = self.entry.block.now; offset = self.entry.offset })) ≡ Err rule) }
    {
        match read_number(self.cells(Access::Number(ty).size())) {
            Ok(bits) => Ok(Num::from_bits(ty, bits)),
            Err(rule) => Err(rule),
        }
    }

    // Whether `n` cells may not be copied here from there, since the ranges overlap.
    fn clashes(self, from: Spot<'_>, n: u32, same: bool) -> bool
        ensures { result ≡ clash n same (record { name = self.entry.name; block = self.entry.block.now; offset = self.entry.offset }) (record { name = from.entry.name; block = from.entry.block.now; offset = from.entry.offset }) }
    {
        self.name == from.name
            && u64::from(self.offset) < u64::from(from.offset) + u64::from(n)
            && u64::from(from.offset) < u64::from(self.offset) + u64::from(n)
            && !(same && self.offset == from.offset)
    }

    fn place(self) -> Place
        ensures name { result.name ≡ self.entry.name }
        ensures offset { result.offset ≡ self.entry.offset }
    {
        Place {
            name: self.name,
            offset: self.offset,
        }
    }
}

/// The blocks of a run by name. Names go 0, 1, 2, .. and none is given twice.
#[derive(Drop)]
pub struct Store {
    alloc: Global,
    // At each name that was given, its block while that lives.
    blocks: Vec<Option<Block>>,
}

// Clauses see, for each name that was given, its block while that lives.
impl Model for Store {
    ghost use Rattle.block_store.specs.Blocks.{Blocks};

    ghost Value = { Blocks };

    ghost view = { λ s. s.blocks.items };
}

impl Store {
    /// A store in which no block was made.
    pub fn new(alloc: Global) -> Store
        ensures { result ≡ [] }
    {
        Store {
            alloc,
            blocks: Vec::new(alloc),
        }
    }

    /// Makes a block of `size` cells, each of which starts as `first`, and gives its name: the count of the names given
    /// before.
    pub fn make(&mut self, size: u32, kind: BlockKind, first: Cell) -> Result<u64, NoMemory>
        requires { length self.old < 2 ^ 64 - 1 }
        ensures name { IfOk result (λ name. name ≡ length self.old) }
        ensures made { OnOk result (self.new ≡ made self.old size kind first) }
        ensures unchanged { OnErr result (self.new ≡ self.old) }
    {
        let cells = vec![in self.alloc; first; size as usize]?;
        self.add(Block { cells, kind })
    }

    /// Makes the block of a string literal, which no store can fill, and gives its name, as `make` does. The bytes are all
    /// that the literal holds, its closing zero too (C11 6.4.5 p6).
    pub fn make_literal(&mut self, bytes: &[u8]) -> Result<u64, NoMemory>
        requires names { length self.old < 2 ^ 64 - 1 }
        requires size { length bytes.now < 2 ^ 32 }
        ensures name { IfOk result (λ name. name ≡ length self.old) }
        ensures made { OnOk result (self.new ≡ made_literal self.old bytes.now) }
        ensures unchanged { OnErr result (self.new ≡ self.old) }
    {
        let cells = literal_cells(self.alloc, bytes)?;
        self.add(Block {
            cells,
            kind: BlockKind::Literal,
        })
    }

    /// Ends a live block, whose name stands for no block from now on (C11 6.2.4).
    pub fn end(&mut self, block: u64)
        requires { IsSome (live self.old block) }
        ensures { self.new ≡ ended self.old block }
    {
        self.blocks[block as usize] = None;
    }

    /// Ends the block that starts at `at`: does nothing at null, and breaks C10 where `at` is neither null nor the start
    /// of a live block of malloc, calloc or realloc (C11 7.22.3.3).
    pub fn free(&mut self, at: Ptr) -> Result<(), Rule>
        ensures answer { result ≡ answer_of (freed self.old at) }
        ensures after { self.new ≡ store_after (freed self.old at) self.old }
    {
        let Ptr::To { block, offset } = at else {
            return Ok(());
        };
        if offset == 0 && self.is_heap(block) {
            self.end(block);
            Ok(())
        } else {
            Err(Rule::C10)
        }
    }

    /// Whether `free` may be given `at`, which changes nothing, or C10 (C11 7.22.3.3, 7.22.3.5).
    pub fn may_end(&self, at: Ptr) -> Result<(), Rule>
        ensures { result ≡ answer_of (freed self.now at) }
    {
        match at {
            Ptr::Null => Ok(()),
            Ptr::To { block, offset: 0 } if self.is_heap(block) => Ok(()),
            Ptr::To { .. } => Err(Rule::C10),
        }
    }

    /// Makes a block of `size` cells in place of the one that starts at `at`, and gives its name, as `make` does: its
    /// first cells are the old block's, as far as both reach, the rest was never written, and the old block ends. At null
    /// it is `make`. It breaks C10 exactly where `free` would, and a refusal changes nothing (C11 7.22.3.5).
    pub fn renew(&mut self, at: Ptr, size: u32) -> Result<u64, StoreFault>
        requires { length self.old < 2 ^ 64 - 1 }
        ensures name { IfOk result (λ name. name ≡ length self.old) }
        ensures renewed { OnOk result (renewed self.old at size ≡ Ok self.new) }
        ensures broke { (rule : Rule) → (result ≡ Err (Broke rule)) ↔ (renewed self.old at size ≡ Err rule) }
        ensures unchanged { OnErr result (self.new ≡ self.old) }
    {
        let Ptr::To { block: old, offset } = at else {
            return Ok(self.make(size, BlockKind::Heap, Cell::Unknown)?);
        };
        if offset != 0 || !self.is_heap(old) {
            return Err(StoreFault::Broke(Rule::C10));
        }
        let cells = self.resized(old, size)?;
        let name = self.add(Block {
            cells,
            kind: BlockKind::Heap,
        })?;
        self.end(old);
        Ok(name)
    }

    /// Changes the number of type `ty` at `at`, and gives the old one, or names the first rule that this breaks and
    /// changes nothing: C5 and C6 as for a load, C12 in a string literal, then C4 and C16 of its cells. The new number
    /// is the sum or the other number, modulo the range of the type (C11 7.17.7.3, 7.17.7.5).
    pub fn change(&mut self, at: Ptr, ty: IntType, how: Change, by: Num) -> Result<Num, Rule>
        ensures answer { result ≡ old_number (changed self.old at ty how by.value) }
        ensures after { self.new ≡ store_after_change (changed self.old at ty how by.value) self.old }
    {
        let spot = match self.writable_at(at, ty) {
            Ok(spot) => spot,
            Err(rule) => return Err(rule),
        };
        let old = match spot.number(ty) {
            Ok(old) => old,
            Err(rule) => return Err(rule),
        };
        let place = spot.place();
        self.write_number(place, how.changed(ty, old, by));
        Ok(old)
    }

    /// Whether the number of type `ty` at `at` is the one at `want`, or the first rule that finding it out breaks, which
    /// changes nothing: C5, C6 and C12 of `at`, then of `want`, then C4 and C16 of the cells at `at`, then of those at
    /// `want`. Where they are equal the number at `at` becomes `new`, modulo the range of the type, and else the number
    /// at `want` becomes that at `at` (C11 7.17.7.4).
    pub fn compare(&mut self, at: Ptr, want: Ptr, ty: IntType, new: Num) -> Result<bool, Rule>
        ensures answer { result ≡ found_equal (compared self.old at want ty new.value) }
        ensures after { self.new ≡ store_after_compare (compared self.old at want ty new.value) self.old }
    {
        let target = match self.writable_at(at, ty) {
            Ok(spot) => spot,
            Err(rule) => return Err(rule),
        };
        let wanted = match self.writable_at(want, ty) {
            Ok(spot) => spot,
            Err(rule) => return Err(rule),
        };
        let found = match target.number(ty) {
            Ok(found) => found,
            Err(rule) => return Err(rule),
        };
        let expected = match wanted.number(ty) {
            Ok(expected) => expected,
            Err(rule) => return Err(rule),
        };
        let (target, wanted) = (target.place(), wanted.place());
        let equal = found.value == expected.value;
        if equal {
            self.write_number(target, Num::wrapping(ty, new.value));
        } else {
            self.write_number(wanted, found);
        }
        Ok(equal)
    }

    /// The size of a live block in bytes, and none where no live block has this name.
    pub fn live_size(&self, block: u64) -> Option<u32>
        ensures { result ≡ live_size self.now block }
    {
        match self.live(block) {
            Some(block) => Some(block.size()),
            None => None,
        }
    }

    /// Reads the value at `at`, or names the first rule that this breaks: C5 through null, to a dead block or outside the
    /// block, then C6 at an offset that is no multiple of the alignment, then C4 where a cell was never written, then C16
    /// where the cells hold no value of this kind.
    pub fn load(&self, at: Ptr, how: Access) -> Result<Value, Rule>
        ensures { result ≡ loaded self.now at how }
    {
        let size = how.size();
        match self.range_at(at, size, size) {
            Ok(spot) => read(how, spot.cells(size)),
            Err(rule) => Err(rule),
        }
    }

    /// Writes a value at `at`, or names the first rule that this breaks and changes nothing: C5 and C6 as for a load, then
    /// C12 in a string literal.
    pub fn store(&mut self, at: Ptr, how: Access, v: Value) -> Result<(), Rule>
        requires { access_of v ≡ how }
        ensures answer { result ≡ answer_of (stored self.old at v) }
        ensures after { self.new ≡ store_after (stored self.old at v) self.old }
    {
        let size = how.size();
        let spot = match self.range_at(at, size, size) {
            Ok(spot) => spot,
            Err(rule) => return Err(rule),
        };
        if spot.block.is_literal() {
            return Err(Rule::C12);
        }
        let place = spot.place();
        self.write(place, &cells_of(v)[..size as usize]);
        Ok(())
    }

    /// Copies the `n` cells at `from` to `to`, whatever they hold, or names the first rule that this breaks and changes
    /// nothing: C5 and C6 of the target, then of the source, by this alignment, then C12 in a string literal, and then
    /// C11 where the ranges overlap, but for exactly the same range where `same` says so. No byte breaks no rule (C11
    /// 7.24.2.1, 6.5.16.1 p3).
    pub fn copy(&mut self, to: Ptr, from: Ptr, n: u32, align: u32, same: bool) -> Result<(), Rule>
        requires { 0 < align }
        ensures answer { result ≡ answer_of (copied self.old to from n align same) }
        ensures after { self.new ≡ store_after (copied self.old to from n align same) self.old }
    {
        if n == 0 {
            return Ok(());
        }
        let target = match self.range_at(to, n, align) {
            Ok(spot) => spot,
            Err(rule) => return Err(rule),
        };
        let source = match self.range_at(from, n, align) {
            Ok(spot) => spot,
            Err(rule) => return Err(rule),
        };
        if target.block.is_literal() {
            return Err(Rule::C12);
        }
        if target.clashes(source, n, same) {
            return Err(Rule::C11);
        }
        let (target, source) = (target.place(), source.place());
        self.copy_cells(target, source, n);
        Ok(())
    }

    /// Takes the mutex at `at` for a thread where it is free, and else changes nothing: it tells that another thread holds
    /// it, or names the first rule that this breaks: C5, C6 and C12 as for a store of its 8 bytes, C4 and C16 of its cells,
    /// and C13 where the thread holds it already (C11 7.26.4.3).
    pub fn lock(&mut self, at: Ptr, thread: u32) -> Result<LockEnd, Rule>
        ensures answer { result ≡ lock_end (locked self.old at thread) }
        ensures after { self.new ≡ store_after_lock (locked self.old at thread) self.old }
    {
        let mutex = match self.mutex_at(at) {
            Ok(mutex) => mutex,
            Err(rule) => return Err(rule),
        };
        let holder = u64::from(thread) + 1;
        if mutex.number == 0 {
            let place = mutex.spot.place();
            self.write(place, &byte_cells(holder));
            Ok(LockEnd::Got)
        } else if mutex.number == holder {
            Err(Rule::C13)
        } else {
            Ok(LockEnd::Held)
        }
    }

    /// Sets free the mutex at `at`, which the thread holds, or names the first rule that this breaks and changes nothing:
    /// as for a lock, and C13 where the thread doesn't hold it (C11 7.26.4.6).
    pub fn unlock(&mut self, at: Ptr, thread: u32) -> Result<(), Rule>
        ensures answer { result ≡ answer_of (unlocked self.old at thread) }
        ensures after { self.new ≡ store_after (unlocked self.old at thread) self.old }
    {
        let mutex = match self.mutex_at(at) {
            Ok(mutex) => mutex,
            Err(rule) => return Err(rule),
        };
        if mutex.number != u64::from(thread) + 1 {
            return Err(Rule::C13);
        }
        let place = mutex.spot.place();
        self.write(place, &byte_cells(0));
        Ok(())
    }

    /// Whether the mutex at `at` may be destroyed, which changes nothing, or the first rule that this breaks: as for a lock,
    /// and C13 where it is held (C11 7.26.4.1; its being held is this project's profile).
    pub fn may_destroy(&self, at: Ptr) -> Result<(), Rule>
        ensures { result ≡ destroyed self.now at }
    {
        let mutex = match self.mutex_at(at) {
            Ok(mutex) => mutex,
            Err(rule) => return Err(rule),
        };
        if mutex.number == 0 {
            Ok(())
        } else {
            Err(Rule::C13)
        }
    }

    /// The length of the text at `at`, which is the bytes before the first zero byte, or the first rule that reading it
    /// breaks: C5 through null, to a dead block or behind the block's end, C4 where a cell was never written, and C16 where
    /// one belongs to a pointer.
    pub fn text_len(&self, at: Ptr) -> Result<u32, Rule>
        ensures { result ≡ text_len self.now at }
    {
        let Ptr::To { block, offset } = at else {
            return Err(Rule::C5);
        };
        match self.live(block) {
            Some(block) => text_len(block.cells_from(offset)),
            None => Err(Rule::C5),
        }
    }

    /// Appends the bytes of the text at `at`, or names the first rule that reading it breaks, as `text_len` does; what was
    /// appended before that stays.
    pub fn append_text(&self, at: Ptr, out: &mut Vec<u8>) -> Result<Result<(), Rule>, NoMemory>
        ensures { IfOk result (λ answer. appended answer out.new.items ≡ joined_bytes (Ok out.old.items) (text_at self.now at)) }
    {
        let Ptr::To { block, offset } = at else {
            return Ok(Err(Rule::C5));
        };
        match self.live(block) {
            Some(block) => append_text(block.cells_from(offset), out),
            None => Ok(Err(Rule::C5)),
        }
    }

    /// How many names were given.
    pub fn names(&self) -> u64
        ensures { result ≡ length self.now }
    {
        self.blocks.len() as u64
    }

    /// Ends the block of a name, if one lives, and gives it away, so that it can be put back (C11 6.2.4).
    pub fn take(&mut self, block: u64) -> EndedBlock
        ensures taken { result ≡ record { name = block; block = live self.old block } }
        ensures after { self.new ≡ ended self.old block }
    {
        let at = block as usize;
        if at < self.blocks.len() {
            EndedBlock {
                name: block,
                block: self.blocks[at].take(),
            }
        } else {
            EndedBlock {
                name: block,
                block: None,
            }
        }
    }

    /// Puts a block back under its name, where that was given.
    pub fn put_back(&mut self, ended: EndedBlock)
        ensures { self.new ≡ set self.old ended.name ended.block }
    {
        let at = ended.name as usize;
        if at < self.blocks.len() {
            self.blocks[at] = ended.block;
        }
    }

    /// Takes the newest name back, with its block.
    pub fn unmake(&mut self)
        ensures { self.new ≡ take (length self.old - 1) self.old }
    {
        let _newest = self.blocks.pop();
    }

    // Gives a new block the next name.
    fn add(&mut self, block: Block) -> Result<u64, NoMemory>
        ensures name { IfOk result (λ name. name ≡ length self.old) }
        ensures added { OnOk result (self.new ≡ self.old ++ Some block ∷ []) }
        ensures unchanged { OnErr result (self.new ≡ self.old) }
    {
        let name = self.blocks.len() as u64;
        self.blocks.push(Some(block))?;
        Ok(name)
    }

    // The `size` bytes that a pointer points to.
    fn range_at(&self, at: Ptr, size: u32, align: u32) -> Result<Spot<'_>, Rule>
        requires { 0 < align }
        ensures spot { MatchResult result (λ s. range_at self.now size align at ≡ Ok (record { name = s.name; block = s.block.now; offset = s.offset })) (λ rule. range_at self.now size align at ≡ Err rule) }
        ensures live { IfOk result (λ s. live self.now s.name ≡ Some s.block.now) }
        ensures within { IfOk result (λ s. s.offset + size ≤ length s.block.now.cells) }
    {
        let Ptr::To {
            block: name,
            offset,
        } = at
        else {
            return Err(Rule::C5);
        };
        let Some(block) = self.live(name) else {
            return Err(Rule::C5);
        };
        if u64::from(offset) + u64::from(size) > u64::from(block.size()) {
            Err(Rule::C5)
        } else if offset % align != 0 {
            Err(Rule::C6)
        } else {
            Ok(Spot {
                name,
                block,
                offset,
            })
        }
    }

    // The bytes of a number that a pointer points to, where they may be written.
    fn writable_at(&self, at: Ptr, ty: IntType) -> Result<Spot<'_>, Rule>
        ensures spot { MatchResult result (λ s. writable_at self.now ty at ≡ Ok (record { name = s.name; block = s.block.now; offset = s.offset })) (λ rule. writable_at self.now ty at ≡ Err rule) }
        ensures live { IfOk result (λ s. live self.now s.name ≡ Some s.block.now) }
        ensures within { IfOk result (λ s. s.offset + size_of (accesses.Number ty) ≤ length s.block.now.cells) }
    {
        let size = Access::Number(ty).size();
        let spot = match self.range_at(at, size, size) {
            Ok(spot) => spot,
            Err(rule) => return Err(rule),
        };
        if spot.block.is_literal() {
            Err(Rule::C12)
        } else {
            Ok(spot)
        }
    }

    // So many cells, of which the first are those of the block of a name, if it lives, and the rest was never written.
    #[tactic(auto, using(crate::proofs::Resized::kept_resized))]
    fn resized(&self, name: u64, size: u32) -> Result<Vec<Cell>, NoMemory>
        ensures { IfOk result (λ cells. cells.items ≡ resized size (cells_in (live self.now name))) }
    {
        let mut cells = match self.live(name) {
            Some(block) => {
                let kept = block.size().min(size);
                block.cells(0, kept as usize).to_vec(self.alloc)?
            }
            None => Vec::new(self.alloc),
        };
        cells.resize(size as usize, Cell::Unknown)?;
        Ok(cells)
    }

    // Writes a number at a place, where its block has its cells.
    fn write_number(&mut self, place: Place, number: Num)
        requires within { IsSomeAnd (live self.old place.name) (λ b. place.offset + size_of (accesses.Number number.ty) ≤ length b.cells) }
        ensures { self.new ≡ overwritten self.old place.name place.offset (cells_of (values.Num number)) }
    {
        let size = Access::Number(number.ty).size();
        self.write(place, &cells_of(Value::Num(number))[..size as usize]);
    }

    // The mutex that a pointer points to.
    fn mutex_at(&self, at: Ptr) -> Result<Mutex<'_>, Rule>
        ensures mutex { MatchResult result (λ m. mutex_at self.now at ≡ Ok (record { spot = record { name = m.spot.name; block = m.spot.block.now; offset = m.spot.offset }; number = m.number })) (λ rule. mutex_at self.now at ≡ Err rule) }
        ensures live { IfOk result (λ m. live self.now m.spot.name ≡ Some m.spot.block.now) }
        ensures within { IfOk result (λ m. m.spot.offset + 8 ≤ length m.spot.block.now.cells) }
    {
        let spot = match self.range_at(at, 8, 8) {
            Ok(spot) => spot,
            Err(rule) => return Err(rule),
        };
        if spot.block.is_literal() {
            return Err(Rule::C12);
        }
        match read_number(spot.cells(8)) {
            Ok(number) => Ok(Mutex { spot, number }),
            Err(rule) => Err(rule),
        }
    }

    // Copies cells from one place to another, where their blocks have them and no cell is read after it was written.
    fn copy_cells(&mut self, to: Place, from: Place, n: u32)
        requires target { IsSomeAnd (live self.old to.name) (λ b. to.offset + n ≤ length b.cells) }
        requires source { IsSomeAnd (live self.old from.name) (λ b. from.offset + n ≤ length b.cells) }
        requires apart { from.name ≡ to.name → is_read_late n to.offset from.offset ≡ false }
        ensures { self.new ≡ overwritten self.old to.name to.offset (held n from.offset (live self.old from.name)) }
    {
        if to.name == from.name {
            self.copy_here(to.name, to.offset, from.offset, n);
        } else {
            self.copy_across(to, from, n);
        }
    }

    // The same, inside one block.
    fn copy_here(&mut self, name: u64, to: u32, from: u32, n: u32)
        requires target { IsSomeAnd (live self.old name) (λ b. to + n ≤ length b.cells) }
        requires source { IsSomeAnd (live self.old name) (λ b. from + n ≤ length b.cells) }
        requires apart { is_read_late n to from ≡ false }
        ensures { self.new ≡ overwritten self.old name to (held n from (live self.old name)) }
    {
        if let Some(block) = &mut self.blocks[name as usize] {
            block.copy(to as usize, from as usize, n as usize);
        }
    }

    // The same, from another block, which is taken out meanwhile.
    fn copy_across(&mut self, to: Place, from: Place, n: u32)
        requires other { from.name ≢ to.name }
        requires target { IsSomeAnd (live self.old to.name) (λ b. to.offset + n ≤ length b.cells) }
        requires source { IsSomeAnd (live self.old from.name) (λ b. from.offset + n ≤ length b.cells) }
        ensures { self.new ≡ overwritten self.old to.name to.offset (held n from.offset (live self.old from.name)) }
    {
        let Some(source) = self.blocks[from.name as usize].take() else {
            return;
        };
        self.write(to, source.cells(from.offset as usize, n as usize));
        self.blocks[from.name as usize] = Some(source);
    }

    // Writes cells at a place, where its block has them.
    fn write(&mut self, place: Place, new: &[Cell])
        requires within { IsSomeAnd (live self.old place.name) (λ b. place.offset + length new.now ≤ length b.cells) }
        ensures { self.new ≡ overwritten self.old place.name place.offset new.now }
    {
        if let Some(block) = &mut self.blocks[place.name as usize] {
            block.write(place.offset as usize, new);
        }
    }

    // The live block of a name.
    fn live(&self, name: u64) -> Option<&Block>
        ensures { option_copied result ≡ live self.now name }
    {
        match self.blocks.get(name as usize) {
            Some(Some(block)) => Some(block),
            _ => None,
        }
    }

    // Whether a name is that of a live block of malloc.
    fn is_heap(&self, name: u64) -> bool
        ensures { result ≡ is_freeable 0 (live self.now name) }
    {
        match self.live(name) {
            Some(block) => block.is_heap(),
            None => false,
        }
    }
}
