ghost use Rattle.std.specs.Prelude.{◌≡◌, map, string_bytes, option_map, codes, IfOk};
ghost use Rattle.clap.specs.Matches.{first_value, found_of};
ghost use Rattle.flat_rules.specs.Ranges.{is_sub_heap_size};
ghost use Rattle.run_words.specs.Wanted.{fits_mode, has_a_file, has_a_size, has_bounded_heap, mode_or_run, only_if, settings_of, wanted_by, wanted_of};

use crate::command::parse;
use crate::numbers::Bounds;
use ak_words::NoMemory;
use clap::ArgMatches;
use flat_rules::{Mode, Settings};
use std::alloc::Global;

// Whether a sub-heap may have so many bytes.
fn is_sub_heap_size(bytes: u32) -> bool
    ensures { result ≡ is_sub_heap_size bytes }
{
    matches!(
        bytes,
        0x1000
            | 0x2000
            | 0x4000
            | 0x8000
            | 0x1_0000
            | 0x2_0000
            | 0x4_0000
            | 0x8_0000
            | 0x10_0000
            | 0x20_0000
            | 0x40_0000
            | 0x80_0000
            | 0x100_0000
    )
}

// The mode that the words name.
fn mode_or_run(matches: &ArgMatches) -> Option<Mode>
    ensures { result ≡ mode_or_run (first_value (found_of matches.now) (codes "mode")) }
{
    match matches.get_str("mode") {
        None | Some("run") => Some(Mode::Run),
        Some("churn") => Some(Mode::Churn),
        Some("check") => Some(Mode::Check),
        Some("race") => Some(Mode::Race),
        Some("build") => Some(Mode::Build),
        Some("load") => Some(Mode::Load),
        Some(_) => None,
    }
}

// The settings that the words give, but for FILE, where each of them is right and the heap isn't too large.
#[tactic(auto, unfolding(crate::specs::Wanted::wanted_by))]
fn numbers_of(matches: &ArgMatches) -> Option<Settings>
    ensures { option_map (λ s. record (wanted_of s) { file = first_value (found_of matches.now) (codes "file") }) result
        ≡ only_if has_bounded_heap (wanted_by (first_value (found_of matches.now))) }
{
    let any = Bounds::new(0, u64::MAX);
    let workers = Bounds::new(1, 16).small_or(matches, "workers", 1)?;
    let schedule = any.number_if_given(matches, "schedule")?;
    let every = Bounds::new(1, 1_000_000).small_if_given(matches, "every")?;
    let subheap = Bounds::new(4_096, 16_777_216).small_or(matches, "subheap", 65_536)?;
    let subheaps = Bounds::new(1, 256).small_or(matches, "subheaps", 16)?;
    let ids = Bounds::new(1, 1_048_576).small_or(matches, "ids", 65_536)?;
    let entries = Bounds::new(1_000, 16_000_000).small_or(matches, "entries", 1_000_000)?;
    let evacuate = Bounds::new(0, 1).small_or(matches, "evacuate", 0)? == 1;
    let output = Bounds::new(1, 16_777_216).small_or(matches, "output", 1_048_576)?;
    let mode = mode_or_run(matches)?;
    let seed = any.number_if_given(matches, "seed")?;
    let size = Bounds::new(1, 4_000).small_if_given(matches, "size")?;
    if !is_sub_heap_size(subheap) || u64::from(subheaps) * u64::from(subheap) > 268_435_456 {
        return None;
    }
    Some(Settings {
        file: None,
        workers,
        schedule,
        every,
        subheap,
        subheaps,
        ids,
        entries,
        evacuate,
        output,
        mode,
        seed,
        size,
    })
}

// FILE.
fn file_of(alloc: Global, matches: &ArgMatches) -> Result<Option<String>, NoMemory>
    ensures { IfOk result (λ r. option_map string_bytes r ≡ first_value (found_of matches.now) (codes "file")) }
{
    match matches.get_str("file") {
        Some(name) => Ok(Some(String::from_str(alloc, name)?)),
        None => Ok(None),
    }
}

// Whether there is a file, and neither a seed nor a size.
fn has_a_file(settings: &Settings) -> bool
    ensures { result ≡ has_a_file (wanted_of settings.now) }
{
    settings.file.is_some() && settings.seed.is_none() && settings.size.is_none()
}

// Whether there is no file, but a seed and a size.
fn has_a_size(settings: &Settings) -> bool
    ensures { result ≡ has_a_size (wanted_of settings.now) }
{
    settings.file.is_none() && settings.seed.is_some() && settings.size.is_some()
}

// Whether the settings are those of their mode.
fn fits_mode(settings: &Settings) -> bool
    ensures { result ≡ fits_mode (wanted_of settings.now) }
{
    match settings.mode {
        Mode::Run | Mode::Check | Mode::Race | Mode::Build | Mode::Load => has_a_file(settings),
        Mode::Churn => has_a_size(settings),
    }
}

// The settings of the matches; none where they are wrong.
fn settings_by(alloc: Global, matches: &ArgMatches) -> Result<Option<Settings>, NoMemory>
    ensures { IfOk result (λ r. option_map wanted_of r
        ≡ only_if fits_mode (only_if has_bounded_heap (wanted_by (first_value (found_of matches.now))))) }
{
    let Some(mut settings) = numbers_of(matches) else {
        return Ok(None);
    };
    settings.file = file_of(alloc, matches)?;
    if fits_mode(&settings) {
        Ok(Some(settings))
    } else {
        Ok(None)
    }
}

/// The settings that the words of a command line want, of which the first is the program's own name; none exactly where the words are wrong.
pub fn read_settings(alloc: Global, words: &[String]) -> Result<Option<Settings>, NoMemory>
    ensures { IfOk result (λ r. option_map wanted_of r ≡ settings_of (map string_bytes words.now)) }
{
    match parse(alloc, words)? {
        Some(matches) => settings_by(alloc, &matches),
        None => Ok(None),
    }
}
