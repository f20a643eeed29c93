ghost use Rattle.std.specs.Prelude.{◌≡◌, ◌<◌, replicate, slice_set, IfOk};
ghost use Rattle.handle_table.specs.Frame.{HasSlot, blank_slot, slot_at};

use ak_words::NoMemory;
use std::alloc::Global;
use std::marker::Model;

/// A pin slot: a word that an access goes through, and the address that it was translated to.
#[derive(Clone, Copy, Debug, PartialEq, Eq)]
pub struct PinSlot {
    /// The word.
    pub word: u64,
    /// Its address, when it was looked up.
    pub address: u64,
}

/// The pin slots of a thread, one calling frame's after the other's.
#[derive(Debug, Drop)]
pub struct PinFrame {
    slots: Vec<PinSlot>,
}

// Clauses see the slots by their numbers.
impl Model for PinFrame {
    ghost use Rattle.std.specs.Prelude.{List};
    ghost use Rattle.handle_table.specs.declared.frame.PinSlot.{PinSlot};

    ghost Value = { List PinSlot };

    ghost view = { λ f. f.slots.items };
}

impl PinFrame {
    /// Makes the slots 0 to `n - 1`, each with the word 0 and the address 0.
    pub fn with_slots(alloc: Global, n: u32) -> Result<PinFrame, NoMemory>
        ensures { IfOk result (λ f. f ≡ replicate n blank_slot) }
    {
        let blank = PinSlot {
            word: 0,
            address: 0,
        };
        let slots = vec![in alloc; blank; n as usize]?;
        Ok(PinFrame { slots })
    }

    /// Sets the word and the address of a slot.
    pub fn set(&mut self, slot: u32, word: u64, address: u64)
        requires { HasSlot self.old slot }
        ensures { self.new ≡ slice_set self.old slot (record { word = word; address = address }) }
    {
        self.slots[slot as usize] = PinSlot { word, address };
    }

    /// The word in a slot.
    pub fn word(&self, slot: u32) -> u64
        requires { HasSlot self.now slot }
        ensures { result ≡ (slot_at self.now slot).word }
    {
        self.slots[slot as usize].word
    }

    /// The address in a slot.
    pub fn address(&self, slot: u32) -> u64
        requires { HasSlot self.now slot }
        ensures { result ≡ (slot_at self.now slot).address }
    {
        self.slots[slot as usize].address
    }

    // The slots as a slice.
    pub(crate) fn slots(&self) -> &[PinSlot]
        ensures { result.now ≡ self.now }
    {
        &self.slots
    }
}
