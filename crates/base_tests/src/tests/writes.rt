//! Writes to a real stream, and to a writer that falters.
use ak_io::{OutSink, Sink, WriteFault};
use std::io;
use std::io::{ErrorKind, Read, Write};
use std::test::Fail;

#[test]
fn a_real_stream(rt: HostRuntime) -> Result<(), Fail> {
    let (mut reader, writer) = io::pipe(&rt)?;
    let mut sink = OutSink::new(writer);
    sink.write_all(b"abc")?;
    let mut bytes = [0u8; 3];
    reader.read_exact(&mut bytes)?;

    // Nobody reads any more: a fault, and no signal.
    drop(reader);
    let closed = sink.write_all(b"d");
    let written = OutSink::new(rt.stdout()).write_all(b"to standard output\n");
    assert_eq!(rt;
        (bytes, closed, written),
        (*b"abc", Err(WriteFault), Ok(()))
    );
    Ok(())
}

/// A writer that is interrupted before each write, takes one byte a write, and has room for four. It
/// can't be flushed once it is full.
#[derive(Drop)]
struct Faltering {
    bytes: [u8; 4],
    len: usize,
    ready: bool,
}

impl Write for Faltering {
    fn write(&mut self, buf: &[u8]) -> io::Result<usize> {
        self.ready = !self.ready;
        if self.ready {
            return Err(io::Error::from(ErrorKind::Interrupted));
        }
        if self.len >= 4 {
            return Err(io::Error::from(ErrorKind::StorageFull));
        }
        let Some(first) = buf.first() else {
            return Ok(0);
        };
        self.bytes[self.len] = *first;
        self.len += 1;
        Ok(1)
    }

    fn flush(&mut self) -> io::Result<()> {
        if self.len < 4 {
            Ok(())
        } else {
            Err(io::Error::from(ErrorKind::StorageFull))
        }
    }
}

/// What a write of that piece to such a writer answers, and what the writer then holds.
fn write_faltering(piece: &str) -> (Result<(), WriteFault>, [u8; 4]) {
    let mut writer = Faltering {
        bytes: [b'-'; 4],
        len: 0,
        ready: false,
    };
    let answer = OutSink::new(&mut writer).write_all(piece.as_bytes());
    (answer, writer.bytes)
}

#[test]
fn broken_writes(rt: HostRuntime) {
    let answers = [
        write_faltering("abc"),
        write_faltering("abcd"),
        write_faltering("abcde"),
    ];
    let wanted = [
        (Ok(()), *b"abc-"),
        (Err(WriteFault), *b"abcd"),
        (Err(WriteFault), *b"abcd"),
    ];
    assert_eq!(rt; answers, wanted);
}
