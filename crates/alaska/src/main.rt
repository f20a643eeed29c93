//! The program `alaska FILE`: reads a C file, runs it over real files and streams, and ends with the status number.
//! Promises nothing upward: it is the edge, and all that is proved is in alaska_run.
//! Stands on alaska_run, ak_crew for a gate that holds nobody, ak_io and ak_words.
#![tactic(auto)]

ghost use Rattle.std.specs.Prelude.{◌≡◌};
ghost use Rattle.std.specs.Process.{exit_status};
ghost use Rattle.run_notes.specs.Statuses.{number_of};

use ak_crew::NoGate;
use ak_io::{FileShelf, OutSink, Sink};
use ak_words::NoMemory;
use alaska_run::{Status, alaska};
use std::alloc::Global;
use std::env;
use std::env::Env;
use std::io::ErrorKind;
use std::process::ExitCode;

// The words of the command line. Where one is no text there are none, which is no usage.
fn read_words<R: Env + AllocGlobal>(rt: &R, alloc: Global) -> Result<Vec<String>, NoMemory> {
    let mut words = Vec::new(alloc);
    match env::args(rt) {
        Ok(arguments) => {
            for word in arguments {
                words.push(word)?;
            }
        }
        Err(error) if error.kind() == ErrorKind::OutOfMemory => return Err(NoMemory),
        Err(_) => {}
    }
    Ok(words)
}

// What the process ends with, for each status.
fn exit_code(status: Status) -> ExitCode
    ensures { exit_status result ≡ number_of status }
{
    ExitCode::from(status.number())
}

fn main(rt: HostRuntime) -> ExitCode {
    let alloc = rt.alloc();
    let mut note = OutSink::new(rt.stderr());
    let status = match read_words(&rt, alloc) {
        Ok(words) => {
            let mut shelf = FileShelf::new(&rt);
            let mut out = OutSink::new(rt.stdout());
            alaska(&rt, alloc, &words, &mut shelf, &mut out, &mut note, &NoGate).status
        }
        Err(NoMemory) => {
            let _ = note.write_all(b"alaska: out of memory\n");
            Status::NoMemory
        }
    };
    exit_code(status)
}
