ghost use Rattle.std.specs.Prelude.{◌≡◌, ℕ, ◌+◌, ◌*◌, ◌-◌, ◌^◌, ◌<◌, ◌≤◌, ◌↔◌, ◌⊎◌, [], true, false, replicate, length, slice_index, IsTrue, IsOk, OnOk, OnErr, IfOk, IfErr, IsSome, IfSome, Contains};
ghost use Rattle.std.specs.FinSet as set;
ghost use Rattle.std.specs.Option.{option_map};
ghost use Rattle.handle_words.specs.Handle.{id_of};
ghost use Rattle.handle_table.specs.Table.{translated};
ghost use Rattle.flat_store.specs.Flat.{first_address, HasBytes, first_outside, first_outside_of_both, bytes_from, with_bytes};
ghost use Rattle.flat_store.specs.Word.{is_word_size, low_bytes};
ghost use Rattle.sub_heaps.specs.SubHeaps.{IsShape};
ghost use Rattle.move_plan.specs.Holding.{is_pinned};
ghost use Rattle.move_plan.specs.Sliding.{IsSlide};
ghost use Rattle.sub_heaps.specs.Moving.{AreLegal, IsAllowed, after_moves};
ghost use Rattle.arena_meaning.specs.Arena.{IsConsistent, IsLiveStart, object_of, place_named, places_named, start_behind};
ghost use Rattle.sub_heaps.specs.ByPlace.{object_at};
ghost use Rattle.arena_meaning.specs.Changes.{IsAnswer, after_alloc, after_alloc_copy, after_alloc_zero, is_live_start, with_filled, with_places, without_id};
ghost use Rattle.arena_meaning.specs.Moves.{KeepsObjects, after_plan, moved};

use crate::carrying::carry_all;
use ak_words::NoMemory;
use arena_meaning::{Alloced, NotLive};
use flat_store::{FIRST_ADDRESS, Flat, OutsideFlat};
use handle_table::{PinWords, Table};
use handle_words::{id, is_handle, make, offset};
use move_plan::{Move, Pins};
use std::alloc::Global;
use std::marker::Model;
use sub_heaps::Heaps;

/// Objects behind handles, in sub-heaps, with their bytes: an object can move, and its handle stays.
#[derive(Debug, Drop)]
pub struct Arena {
    start: u64,
    table: Table,
    heaps: Heaps,
    bytes: Flat,
    // Whose the objects of a slide are. There is room for all objects.
    owners: Vec<u32>,
}

// Clauses see where the sub-heaps begin, the address of each id in use, the objects in order of place, and the bytes.
impl Model for Arena {
    ghost use Rattle.std.specs.Prelude.{◌≤◌, vec_capacity};
    ghost use Rattle.arena_meaning.specs.Arena.{Storage, IsConsistent};

    ghost Value = { Storage };

    ghost view = { λ a. record { start = a.start; table = a.table; heaps = a.heaps; bytes = a.bytes } };

    ghost invariant = { λ a. IsConsistent (record { start = a.start; table = a.table; heaps = a.heaps; bytes = a.bytes }) × (a.heaps.most ≤ vec_capacity a.owners) };
}

impl Arena {
    /// Makes an arena of `plain` zero bytes, and behind them `count` sub-heaps of `size` zero bytes without any object, and takes
    /// the memory for `ids` objects. The error is want of memory.
    pub fn new(
        alloc: Global,
        plain: u64,
        count: u32,
        size: u32,
        ids: u32,
    ) -> Result<Arena, NoMemory>
        requires plain { plain ≤ 2 ^ 31 }
        requires shape { IsShape count size ids }
        ensures made { IfOk result (λ a. a ≡ record { start = start_behind plain; table = replicate ids None; heaps = record { count = count; size = size; most = ids; objects = [] }; bytes = replicate (start_behind plain - first_address + count * size) 0 }) }
        ensures consistent { IfOk result IsConsistent }
    {
        let start = (FIRST_ADDRESS + plain + 15) / 16 * 16;
        let bytes = Flat::new(
            alloc,
            start - FIRST_ADDRESS + u64::from(count) * u64::from(size),
        )?;
        let table = Table::new(alloc, ids)?;
        let heaps = Heaps::new(alloc, count, size, ids)?;
        let owners = Vec::with_capacity(alloc, ids as usize)?;
        Ok(Arena {
            start,
            table,
            heaps,
            bytes,
            owners,
        })
    }

    /// Gives a new object of so many bytes the least free id, and the lowest place at which it fits. Where all ids are in use the
    /// answer is [`Alloced::NoId`], and else, where it fits at no place, [`Alloced::NoGap`].
    pub fn alloc(&mut self, bytes: u64) -> Alloced
        ensures answer { IsAnswer self.old bytes result }
        ensures after { self.new ≡ after_alloc self.old bytes result }
        ensures consistent { IsConsistent self.new }
    {
        let Some(id) = self.table.take() else {
            return Alloced::NoId;
        };
        match self.heaps.place(bytes, id) {
            Some(place) => {
                self.table.set(id, self.start + u64::from(place));
                Alloced::Got { id, place }
            }
            None => {
                self.table.give(id);
                Alloced::NoGap
            }
        }
    }

    /// The same as [`Arena::alloc`], and each byte of the new object is 0.
    pub fn alloc_zero(&mut self, bytes: u64) -> Alloced
        ensures answer { IsAnswer self.old bytes result }
        ensures after { self.new ≡ after_alloc_zero self.old bytes result }
        ensures consistent { IsConsistent self.new }
    {
        let _consistent = &self.heaps;
        let taken = self.alloc(bytes);
        if let Alloced::Got { place, .. } = taken {
            let size = self.size_at(place);
            self.clear_bytes(place, size);
        }
        taken
    }

    /// The same as [`Arena::alloc`], and where a word is the handle of a live object's start
    /// ([`Arena::is_live`]), the new object has that one's bytes, as far as both reach. The old object stays.
    pub fn alloc_copy(&mut self, word: u64, bytes: u64) -> Alloced
        ensures answer { IsAnswer self.old bytes result }
        ensures after { self.new ≡ after_alloc_copy self.old word bytes result }
        ensures consistent { IsConsistent self.new }
    {
        let Some(from) = self.live_start(word) else {
            return self.alloc(bytes);
        };
        let taken = self.alloc(bytes);
        if let Alloced::Got { place, .. } = taken {
            let size = self.size_at(from).min(self.size_at(place));
            self.copy_bytes(place, from, size);
        }
        taken
    }

    /// Whether a word is the handle of a live object's start.
    pub fn is_live(&self, word: u64) -> bool
        ensures test { result ≡ is_live_start self.now word }
        ensures live { (result ≡ true) ↔ IsLiveStart self.now word }
        ensures consistent { IsConsistent self.now }
    {
        self.live_start(word).is_some()
    }

    /// Ends the object whose start a word is the handle of, and does nothing at 0. At any other word the error comes, and nothing
    /// changes.
    pub fn free(&mut self, word: u64) -> Result<(), NotLive>
        ensures answer { IsOk result ↔ ((word ≡ 0) ⊎ IsLiveStart self.old word) }
        ensures null { word ≡ 0 → self.new ≡ self.old }
        ensures freed { IsLiveStart self.old word → self.new ≡ without_id self.old (id_of word) }
        ensures unchanged { OnErr result (self.new ≡ self.old) }
        ensures consistent { IsConsistent self.new }
    {
        let Some(place) = self.live_start(word) else {
            return if word == 0 { Ok(()) } else { Err(NotLive) };
        };
        self.heaps.free(place);
        self.table.give(id(word));
        Ok(())
    }

    /// Translates a word ([`Table::look`]).
    pub fn look(&self, word: u64) -> u64
        ensures translated { result ≡ translated self.now.table word }
        ensures consistent { IsConsistent self.now }
    {
        self.table.look(word)
    }

    /// Adds the places of the objects that the words name. A word that is no handle of an id in use names none.
    pub fn pins_of(&self, words: &PinWords, into: &mut Pins)
        requires { set.len (with_places (places_named self.now words.now.words) into.old.places) ≤ into.old.room }
        ensures added { into.new ≡ record into.old { places = with_places (places_named self.now words.now.words) into.old.places } }
        ensures members { (at : ℕ) → (is_pinned into.new at ≡ true) ↔ ((is_pinned into.old at ≡ true) ⊎ Contains (places_named self.now words.now.words) at) }
    {
        for i in 0..words.len() {
            if let Some(place) = self.place_at(words, i) {
                into.add(place);
            }
        }
    }

    /// Makes moves, in their order: each object takes its bytes along, and its id gets its new address.
    pub fn apply(&mut self, moves: &[Move], pins: &Pins)
        requires { AreLegal (is_pinned pins.now) self.old.heaps moves.now }
        ensures heaps { self.new.heaps ≡ after_moves moves.now self.old.heaps }
        ensures kept { KeepsObjects (is_pinned pins.now) moves.now self.old self.new }
        ensures after { self.new ≡ after_plan moves.now self.old }
        ensures consistent { IsConsistent self.new }
    {
        let _consistent = &self.heaps;
        for next in moves {
            self.move_object(*next);
        }
    }

    /// Makes the moves that slide, as [`Arena::apply`] makes them, the objects in one walk.
    pub fn slide(&mut self, moves: &[Move], pins: &Pins)
        requires { IsSlide (is_pinned pins.now) self.old.heaps moves.now }
        ensures heaps { self.new.heaps ≡ after_moves moves.now self.old.heaps }
        ensures kept { KeepsObjects (is_pinned pins.now) moves.now self.old self.new }
        ensures after { self.new ≡ after_plan moves.now self.old }
        ensures consistent { IsConsistent self.new }
    {
        self.heaps.shift_all(moves, &mut self.owners);
        carry_all(
            &mut self.table,
            &mut self.bytes,
            self.start,
            moves,
            &self.owners,
        );
    }

    /// Writes the `n` low bytes of `v` from `at` on, the least first ([`Flat::store`]).
    pub fn store(&mut self, at: u64, n: u8, v: u64) -> Result<(), OutsideFlat>
        requires { IsTrue (is_word_size n) }
        ensures within { IsOk result ↔ HasBytes self.old.bytes at n }
        ensures stored { OnOk result (self.new ≡ record self.old { bytes = with_bytes self.old.bytes at (low_bytes n v) }) }
        ensures outside { IfErr result (λ e. first_outside self.old.bytes at n ≡ Some e.0) }
        ensures unchanged { OnErr result (self.new ≡ self.old) }
        ensures consistent { IsConsistent self.new }
    {
        self.bytes.store(at, n, v)
    }

    /// Leaves at `to` the `n` bytes that stood at `from` ([`Flat::copy`]).
    pub fn copy(&mut self, to: u64, from: u64, n: u64) -> Result<(), OutsideFlat>
        ensures within { IsOk result ↔ (HasBytes self.old.bytes to n × HasBytes self.old.bytes from n) }
        ensures copied { OnOk result (self.new ≡ record self.old { bytes = with_bytes self.old.bytes to (bytes_from self.old.bytes from n) }) }
        ensures outside { IfErr result (λ e. first_outside_of_both self.old.bytes to from n ≡ Some e.0) }
        ensures unchanged { OnErr result (self.new ≡ self.old) }
        ensures consistent { IsConsistent self.new }
    {
        self.bytes.copy(to, from, n)
    }

    /// The bytes.
    pub fn flat(&self) -> &Flat
        ensures bytes { result.now ≡ self.now.bytes }
        ensures consistent { IsConsistent self.now }
    {
        &self.bytes
    }

    /// The sub-heaps with their objects.
    pub fn heaps(&self) -> &Heaps
        ensures heaps { result.now ≡ self.now.heaps }
        ensures consistent { IsConsistent self.now }
    {
        &self.heaps
    }

    // The place of the object of an id, where it is in use.
    fn place_of(&self, id: u32) -> Option<u32>
        requires { id < 2 ^ 31 }
        ensures place { result ≡ option_map (λ o. o.at) (object_of id self.now.heaps.objects) }
        ensures consistent { IsConsistent self.now }
    {
        if !self.table.in_use(id) {
            return None;
        }
        let address = self.table.look(make(id, 0));
        Some((address - self.start) as u32)
    }

    // The place of the object whose start a word is the handle of, where it is one.
    fn live_start(&self, word: u64) -> Option<u32>
        ensures live { IsSome result ↔ IsLiveStart self.now word }
        ensures place { IfSome result (λ at. Some at ≡ option_map (λ o. o.at) (object_of (id_of word) self.now.heaps.objects)) }
        ensures consistent { IsConsistent self.now }
    {
        let _consistent = &self.heaps;
        if is_handle(word) && offset(word) == 0 {
            self.place_of(id(word))
        } else {
            None
        }
    }

    // The place of the object that the word at an index names, where it names one.
    fn place_at(&self, words: &PinWords, i: u32) -> Option<u32>
        requires { i < length words.now.words }
        ensures { result ≡ place_named self.now (slice_index words.now.words i) }
    {
        let word = words.get(i)?;
        if is_handle(word) {
            self.place_of(id(word))
        } else {
            None
        }
    }

    // The size of the object that starts at a place.
    fn size_at(&self, place: u32) -> u32
        requires { IsSome (object_at place self.now.heaps.objects) }
        ensures size { IfSome (object_at place self.now.heaps.objects) (λ o. result ≡ o.size) }
        ensures consistent { IsConsistent self.now }
    {
        let Some(object) = self.heaps.next_object(place) else {
            unreachable!()
        };
        object.size
    }

    // Makes the `n` bytes from a place on 0.
    fn clear_bytes(&mut self, place: u32, n: u32)
        requires { place + n ≤ self.old.heaps.count * self.old.heaps.size }
        ensures cleared { self.new ≡ with_filled self.old place (replicate n 0) }
        ensures consistent { IsConsistent self.new }
    {
        let at = self.start + u64::from(place);
        match self.bytes.clear(at, u64::from(n)) {
            Ok(()) => {}
            Err(_) => unreachable!(),
        }
    }

    // Leaves from one place on the `n` bytes that stood from another on.
    fn copy_bytes(&mut self, to: u32, from: u32, n: u32)
        requires to { to + n ≤ self.old.heaps.count * self.old.heaps.size }
        requires from { from + n ≤ self.old.heaps.count * self.old.heaps.size }
        ensures copied { self.new ≡ with_filled self.old to (bytes_from self.old.bytes (self.old.start + from) n) }
        ensures consistent { IsConsistent self.new }
    {
        let target = self.start + u64::from(to);
        let source = self.start + u64::from(from);
        match self.bytes.copy(target, source, u64::from(n)) {
            Ok(()) => {}
            Err(_) => unreachable!(),
        }
    }

    // Makes one move.
    fn move_object(&mut self, next: Move)
        requires { IsAllowed (λ _. false) self.old.heaps next }
        ensures moved { self.new ≡ moved next self.old }
        ensures consistent { IsConsistent self.new }
    {
        let Some(object) = self.heaps.next_object(next.from) else {
            return;
        };
        let from = self.start + u64::from(next.from);
        let to = self.start + u64::from(next.to);
        self.heaps.shift(next.from, next.to);
        self.table.set(object.owner, to);
        match self.bytes.copy(to, from, u64::from(object.size)) {
            Ok(()) => {}
            Err(_) => unreachable!(),
        }
    }
}
