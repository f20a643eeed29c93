ghost use Rattle.std.specs.Prelude.{◌≡◌, ◌≢◌, [], OnOk, OnErr};
ghost use Rattle.run_edges.specs.Sinks.{channel, Gained, GainedFront, WriteFailed};
ghost use Rattle.run_edges.specs.Writing.{Written, after_note_fault};

use ak_io::{Sink, WriteFault};
use run_notes::Status;

/// Writes the bytes to a sink, unless there are none.
fn put<S: Sink>(sink: &mut S, bytes: &[u8]) -> Result<(), WriteFault>
    ensures ok { OnOk result (Gained (channel S.contents S.faults sink.old sink.new) bytes.now) }
    ensures some { OnErr result (bytes.now ≢ []) }
    ensures cause { OnErr result (WriteFailed (channel S.contents S.faults sink.old sink.new)) }
    ensures front { OnErr result (GainedFront (channel S.contents S.faults sink.old sink.new) bytes.now) }
{
    if bytes.is_empty() {
        return Ok(());
    }
    sink.write_all(bytes)
}

/// What a status becomes where note fails: want of memory stays what it is.
fn status_after_note_fault(status: Status) -> Status
    ensures { result ≡ after_note_fault status }
{
    match status {
        Status::NoMemory => Status::NoMemory,
        _ => Status::WriteFault,
    }
}

/// Writes what the program printed to `out`, and then the line of the status to `note`. Where `out` fails, `note`
/// is not written.
pub fn write_ending<O: Sink, N: Sink>(
    status: Status,
    output: &[u8],
    line: &[u8],
    out: &mut O,
    note: &mut N,
) -> Status
    ensures { Written status result output.now line.now
        (channel O.contents O.faults out.old out.new) (channel N.contents N.faults note.old note.new) }
{
    let Ok(()) = put(out, output) else {
        return Status::WriteFault;
    };
    match put(note, line) {
        Ok(()) => status,
        Err(WriteFault) => status_after_note_fault(status),
    }
}
