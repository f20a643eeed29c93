//! Callers whose contracts show what those of the shelf and the sink give.
ghost use Rattle.std.specs.Prelude.{◌≡◌, ◌+◌, ◌<◌, ◌≤◌, [], ◌++◌, length, IsSome, IfSome, OnOk, OnErr};
ghost use Rattle.ak_io.specs.Faults.{Rose};
ghost use Rattle.ak_io.specs.Bytes.{grown, GrewByPrefix};
ghost use Rattle.ak_io.specs.ReadEnd.{IsReadOf};
ghost use Rattle.ak_io.specs.MemShelf.{bytes_of};

use ak_io::{MemShelf, MemSink, ReadEnd, Shelf, Sink, WriteFault};
use std::test::Fail;

/// Two writes in a row, at any sink: what holds of one holds of both.
#[tactic(auto, using(crate::proofs::Grown::longer_prefix))]
fn write_both<S: Sink>(sink: &mut S, first: &[u8], second: &[u8]) -> Result<(), WriteFault>
    requires first { 0 < length first.now }
    requires second { 0 < length second.now }
    ensures ok { OnOk result (S.contents sink.new ≡ grown (S.contents sink.old) (first.now ++ second.now)) }
    ensures err { OnErr result
        (GrewByPrefix (S.contents sink.old) (S.contents sink.new) (first.now ++ second.now)) }
    ensures cause { OnErr result (Rose (S.faults sink.old) (S.faults sink.new)) }
    ensures steady { OnOk result (S.faults sink.new ≡ S.faults sink.old) }
    ensures count { S.faults sink.old ≤ S.faults sink.new }
{
    sink.write_all(first)?;
    sink.write_all(second)
}

/// With no listed call and enough room a write never fails.
fn write_surely(sink: &mut MemSink, bytes: &[u8])
    requires listed { sink.old.calls.failing ≡ [] }
    requires room { length sink.old.bytes + length bytes.now ≤ sink.old.room }
    ensures { sink.new.bytes ≡ sink.old.bytes ++ bytes.now }
{
    sink.write_all(bytes).unwrap();
}

/// With no listed call a read of a name that is held never fails.
fn read_surely(shelf: &mut MemShelf, name: &str, into: &mut [u8]) -> ReadEnd
    requires listed { shelf.old.calls.failing ≡ [] }
    requires held { IsSome (bytes_of shelf.old name.now) }
    ensures { IfSome (bytes_of shelf.old name.now) (λ bytes. IsReadOf bytes into.new result) }
{
    shelf.read(name, into).unwrap()
}

#[test]
fn writes_in_a_row(rt: HostRuntime) -> Result<(), Fail> {
    let alloc = rt.alloc();
    let mut sink = MemSink::new(alloc, 7, Vec::new(alloc))?;
    write_surely(&mut sink, b"1");
    let written = write_both(&mut sink, b"2", b"34");
    assert_eq!(rt; (written, sink.bytes()), (Ok(()), b"1234".as_slice()));
    Ok(())
}
