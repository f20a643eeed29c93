//! A sink in memory.
ghost use Rattle.std.specs.Prelude.{◌≡◌, ◌≤◌, ◌↔◌, [], Some, IfOk, OnOk, OnErr, IsErr};
ghost use Rattle.ak_io.specs.Faults.{Rose};
ghost use Rattle.ak_io.specs.Bytes.{grown, GrewByPrefix};
ghost use Rattle.ak_io.specs.Calls.{none_made};

use crate::calls::Calls;
use crate::{Sink, WriteFault};
use ak_words::NoMemory;
use std::alloc::Global;
use std::marker::Model;

/// A sink that keeps its bytes in memory. It has room for so many bytes, and fails the calls whose
/// numbers it was given, from 1.
#[derive(Debug, Drop)]
pub struct MemSink {
    bytes: Vec<u8>,
    room: usize,
    faults: u64,
    calls: Calls,
}

impl Model for MemSink {
    ghost use Rattle.std.specs.Prelude.{◌≤◌, vec_len, vec_capacity};
    ghost use Rattle.ak_io.specs.MemSink.{Written};

    ghost Value = { Written };

    ghost view = { λ sink. record {
      bytes = sink.bytes.items;
      room = sink.room;
      faults = sink.faults;
      calls = sink.calls;
    } };

    ghost invariant = { λ sink. (vec_len sink.bytes ≤ sink.room) × (sink.room ≤ vec_capacity sink.bytes) };
}

impl MemSink {
    /// An empty sink. The room is reserved here, so no write takes memory.
    ///
    /// # Errors
    ///
    /// `NoMemory` where the room can't be reserved.
    pub fn new(alloc: Global, room: usize, failing: Vec<u32>) -> Result<MemSink, NoMemory>
        ensures { IfOk result (λ sink.
            sink ≡ record { bytes = []; room = room; faults = 0; calls = none_made failing.items }) }
    {
        let bytes = Vec::with_capacity(alloc, room)?;
        Ok(MemSink {
            bytes,
            room,
            faults: 0,
            calls: Calls::new(failing),
        })
    }

    /// What was written, in order.
    pub fn bytes(&self) -> &[u8]
        ensures { result.now ≡ self.now.bytes }
    {
        &self.bytes
    }
}

impl Sink for MemSink {
    ghost use Rattle.ak_io.specs.MemSink.{WriteFails, with_bytes, with_write_fault};

    ghost contents = { λ sink. Some sink.bytes };

    ghost faults = { λ sink. sink.faults };

    /// A call that fails changes no bytes.
    fn write_all(&mut self, bytes: &[u8]) -> Result<(), WriteFault>
        ensures ok { OnOk result (Some self.new.bytes ≡ grown (Some self.old.bytes) bytes.now) }
        ensures err { OnErr result (GrewByPrefix (Some self.old.bytes) (Some self.new.bytes) bytes.now) }
        ensures cause { OnErr result (Rose self.old.faults self.new.faults) }
        ensures steady { OnOk result (self.new.faults ≡ self.old.faults) }
        ensures count { self.old.faults ≤ self.new.faults }

        // Exactly when it fails, and all that it leaves.
        ensures fails { IsErr result ↔ WriteFails self.old bytes.now }
        ensures written { OnOk result (self.new ≡ with_bytes self.old bytes.now) }
        ensures failed { OnErr result (self.new ≡ with_write_fault self.old) }
    {
        let is_listed = self.calls.next_fails();
        if is_listed || bytes.len() > self.room - self.bytes.len() {
            self.faults = self.faults.saturating_add(1);
            return Err(WriteFault);
        }
        self.bytes.extend_from_slice(bytes).unwrap();
        Ok(())
    }
}
