ghost use Rattle.std.specs.Prelude.{◌≡◌, false, map, string_bytes, IfOk};
ghost use Rattle.clap.specs.Simple.{app_of};
ghost use Rattle.clap.specs.Walk.{rule_of};
ghost use Rattle.run_words.specs.Command.{alaska, option_rule};
ghost use Rattle.run_words.specs.inner.Parses.{IsParse};

use ak_words::NoMemory;
use clap::error::ErrorKind;
use clap::{Arg, ArgMatches, Command};
use std::alloc::Global;

// The names of the options.
static NAMES: [&str; 12] = [
    "workers", "schedule", "every", "subheap", "subheaps", "ids", "entries", "evacuate", "output",
    "mode", "seed", "size",
];

// An option of one value.
fn option<'a>(alloc: Global, name: &'a str) -> Arg<'a>
    ensures rule { rule_of result ≡ option_rule name.entry.now }
    ensures local { result.global ≡ false }
{
    Arg::new(alloc, name).long(name)
}

// The command line: FILE and the options.
fn command<'a>(alloc: Global) -> Result<Command<'a>, NoMemory>
    ensures { IfOk result (λ c. app_of c ≡ alaska) }
{
    let file = Arg::new(alloc, "file");
    let mut command = Command::new(alloc, "alaska")
        .disable_help_flag(true)
        .arg(file)?;
    for name in NAMES {
        command = command.arg(option(alloc, name))?;
    }
    Ok(command)
}

/// The matches of the words, or none where the command line doesn't take them.
pub fn parse<'a>(alloc: Global, words: &'a [String]) -> Result<Option<ArgMatches<'a>>, NoMemory>
    ensures { IfOk result (IsParse (map string_bytes words.entry.now)) }
{
    match command(alloc)?.try_get_matches_from(words) {
        Ok(matches) => Ok(Some(matches)),
        Err(error) => match error.kind() {
            ErrorKind::OutOfMemory => Err(NoMemory),
            _ => Ok(None),
        },
    }
}
