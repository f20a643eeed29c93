//! The sink over a standard stream.
ghost use Rattle.std.specs.Prelude.{◌≡◌, ◌<◌, ◌≤◌, None, length, take, IfOk, OnOk, OnErr};
ghost use Rattle.std.specs.Io.KnownBytes.{Appends, Keeps};
ghost use Rattle.ak_io.specs.Faults.{Rose, raised};
ghost use Rattle.ak_io.specs.OutSink.{writer_of, faults_of, AppendsPrefix};

use crate::{Sink, WriteFault};
use std::io::{ErrorKind, Write};

/// A writer as a sink: std's writer for standard output or standard error. It tells no bytes.
#[derive(Debug, Drop)]
pub struct OutSink<W> {
    writer: W,
    faults: u64,
}

impl<W: Write> OutSink<W> {
    /// A sink that writes to `writer`, with no fault yet. It takes no memory.
    pub fn new(writer: W) -> OutSink<W>
        ensures writer { writer_of result ≡ writer }
        ensures faults { faults_of result ≡ 0 }
    {
        OutSink { writer, faults: 0 }
    }
}

impl<W: Write> Sink for OutSink<W> {
    ghost contents = { λ _. None };

    ghost faults = { faults_of };

    /// Each failure raises the count by one, up to its last value.
    fn write_all(&mut self, bytes: &[u8]) -> Result<(), WriteFault>
        ensures cause { OnErr result (Rose (faults_of self.old) (faults_of self.new)) }
        ensures steady { OnOk result (faults_of self.new ≡ faults_of self.old) }
        ensures count { faults_of self.old ≤ faults_of self.new }

        // Where the writer tells its bytes, they got all of these, or at a fault some first part.
        ensures written { OnOk result
            (Appends (W.contents (writer_of self.old)) (W.contents (writer_of self.new)) bytes.now) }
        ensures part { OnErr result
            (AppendsPrefix (W.contents (writer_of self.old)) (W.contents (writer_of self.new)) bytes.now) }
        ensures raised { OnErr result (faults_of self.new ≡ raised (faults_of self.old)) }
    {
        let outcome = write_whole(&mut self.writer, bytes);
        if outcome.is_err() {
            self.faults = self.faults.saturating_add(1);
        }
        outcome
    }
}

/// Writes all of the bytes, and flushes, so that a full device or a closed pipe is seen.
fn write_whole<W: Write>(writer: &mut W, bytes: &[u8]) -> Result<(), WriteFault>
    ensures written { OnOk result (Appends (W.contents writer.old) (W.contents writer.new) bytes.now) }
    ensures part { OnErr result (AppendsPrefix (W.contents writer.old) (W.contents writer.new) bytes.now) }
{
    let mut rest = bytes;
    'writing: while !rest.is_empty() {
        let count = write_some(writer, rest)?;
        rest = &rest[count..];
    }
    writer.flush().map_err(|_| WriteFault)
}

/// One write of at least one byte, made again where a signal interrupts it.
fn write_some<W: Write>(writer: &mut W, bytes: &[u8]) -> Result<usize, WriteFault>
    requires { 0 < length bytes.now }
    ensures fits { IfOk result (λ count. (0 < count) × (count ≤ length bytes.now)) }
    ensures written { IfOk result (λ count.
        Appends (W.contents writer.old) (W.contents writer.new) (take count bytes.now)) }
    ensures err { OnErr result (Keeps (W.contents writer.old) (W.contents writer.new)) }
{
    'interrupted: for _ in 0..u64::MAX {
        match writer.write(bytes) {
            Ok(0) => return Err(WriteFault),
            Ok(count) => return Ok(count),
            Err(error) if error.kind() == ErrorKind::Interrupted => {}
            Err(_) => return Err(WriteFault),
        }
    }
    Err(WriteFault)
}
