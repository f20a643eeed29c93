use ak_words::NoMemory;
use flat_rules::{Mode, Settings};
use run_words::read_settings;
use std::alloc::Global;
use std::process::Abort;
use std::test::Fail;

// What the words want that stand behind the program's own name, parted by blanks.
fn wanted(alloc: Global, line: &str) -> Result<Option<Settings>, NoMemory> {
    let mut words = Vec::new(alloc);
    words.push(String::from_str(alloc, "alaska")?)?;
    for word in line.split_whitespace() {
        words.push(String::from_str(alloc, word)?)?;
    }
    read_settings(alloc, &words)
}

// The words are wrong.
fn are_wrong<R: Abort>(rt: &R, alloc: Global, line: &str) -> Result<(), NoMemory> {
    assert!(rt; wanted(alloc, line)?.is_none(), "{line}");
    Ok(())
}

#[test]
fn a_file_alone(rt: HostRuntime) -> Result<(), Fail> {
    let settings = wanted(rt.alloc(), "a.c")?.ok_or("wrong words")?;
    assert!(rt; settings.file.as_ref().map_or("", |file| file.as_str()) == "a.c");
    assert_eq!(rt; settings.workers, 1);
    assert_eq!(rt; settings.schedule, None);
    assert_eq!(rt; settings.every, None);
    assert_eq!(rt; settings.subheap, 65_536);
    assert_eq!(rt; settings.subheaps, 16);
    assert_eq!(rt; settings.ids, 65_536);
    assert_eq!(rt; settings.entries, 1_000_000);
    assert!(rt; !settings.evacuate);
    assert_eq!(rt; settings.output, 1_048_576);
    assert!(rt; settings.mode == Mode::Run);
    assert_eq!(rt; settings.seed, None);
    assert_eq!(rt; settings.size, None);
    Ok(())
}

#[test]
fn options(rt: HostRuntime) -> Result<(), Fail> {
    let line =
        "--workers 2 --every=8 a.c --schedule 18446744073709551615 --subheap 4096 --evacuate 1 --mode run";
    let settings = wanted(rt.alloc(), line)?.ok_or("wrong words")?;
    assert_eq!(rt; settings.workers, 2);
    assert_eq!(rt; settings.every, Some(8));
    assert_eq!(rt; settings.schedule, Some(u64::MAX));
    assert_eq!(rt; settings.subheap, 4_096);
    assert!(rt; settings.evacuate);
    Ok(())
}

#[test]
fn wrong_words(rt: HostRuntime) -> Result<(), Fail> {
    are_wrong(&rt, rt.alloc(), "")?;
    are_wrong(&rt, rt.alloc(), "a.c --workers 0")?;
    are_wrong(&rt, rt.alloc(), "a.c --subheap 5000")?;
    are_wrong(&rt, rt.alloc(), "--mode churn --seed 1")?;
    are_wrong(&rt, rt.alloc(), "a.c --help")?;
    are_wrong(&rt, rt.alloc(), "a.c b.c")?;
    are_wrong(&rt, rt.alloc(), "a.c --evacuate 2")?;
    are_wrong(&rt, rt.alloc(), "a.c --seed 1")?;
    Ok(())
}

#[test]
fn mode_churn(rt: HostRuntime) -> Result<(), Fail> {
    let settings = wanted(rt.alloc(), "--mode churn --seed 1 --size 3")?.ok_or("wrong words")?;
    assert!(rt; settings.mode == Mode::Churn);
    assert!(rt; settings.file.is_none());
    assert_eq!(rt; settings.seed, Some(1));
    assert_eq!(rt; settings.size, Some(3));
    are_wrong(&rt, rt.alloc(), "a.c --mode churn --seed 1 --size 3")?;
    Ok(())
}

#[test]
fn mode_check(rt: HostRuntime) -> Result<(), Fail> {
    let settings = wanted(rt.alloc(), "a.c --mode check --schedule 7")?.ok_or("wrong words")?;
    assert!(rt; settings.mode == Mode::Check);
    assert_eq!(rt; settings.schedule, Some(7));
    are_wrong(&rt, rt.alloc(), "--mode check")?;
    are_wrong(&rt, rt.alloc(), "a.c --mode check --seed 1")?;
    Ok(())
}

#[test]
fn mode_race(rt: HostRuntime) -> Result<(), Fail> {
    let settings = wanted(rt.alloc(), "a.c --mode race --workers 2")?.ok_or("wrong words")?;
    assert!(rt; settings.mode == Mode::Race);
    assert_eq!(rt; settings.workers, 2);
    are_wrong(&rt, rt.alloc(), "--mode race")?;
    are_wrong(&rt, rt.alloc(), "a.c --mode race --seed 1")?;
    are_wrong(&rt, rt.alloc(), "a.c --mode race --size 3")?;
    Ok(())
}

#[test]
fn modes_of_code_files(rt: HostRuntime) -> Result<(), Fail> {
    let built = wanted(rt.alloc(), "a.c --mode build")?.ok_or("wrong words")?;
    assert!(rt; built.mode == Mode::Build);
    let loaded = wanted(rt.alloc(), "--mode=load a.alsk --workers 2")?.ok_or("wrong words")?;
    assert!(rt; loaded.mode == Mode::Load);
    assert_eq!(rt; loaded.workers, 2);
    are_wrong(&rt, rt.alloc(), "--mode build")?;
    are_wrong(&rt, rt.alloc(), "a.c --mode build --size 3")?;
    are_wrong(&rt, rt.alloc(), "--mode load")?;
    are_wrong(&rt, rt.alloc(), "a.c --mode load --seed 1")?;
    Ok(())
}
