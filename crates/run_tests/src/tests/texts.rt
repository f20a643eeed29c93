use ak_io::{MemShelf, MemSink};
use ak_trace::{End, TrapKind, Verdict};
use ak_words::{NoMemory, Rule};
use c_lex::Kind;
use pin_checker::Why;
use run_edges::{MOST_BYTES, TextRead, read_text, write_ending};
use run_notes::{
    RaceNote, RaceSide, Status, built_line, check_line, fault_line, push_race_line, push_report,
    status_of, status_with,
};
use run_report::{LastBarrier, Report};
use std::alloc::Global;
use std::process::Abort;
use std::test::Fail;

// The report of a main that ends at once.
const SHORT_RUN: Report = Report {
    threads: 1,
    entries: 2,
    barriers: 0,
    moved_objects: 0,
    moved_bytes: 0,
    emptied: 0,
    live_objects: 0,
    live_bytes: 0,
    extent: 0,
    heap: 1_048_576,
    last: None,
};

#[test]
fn a_short_run(rt: HostRuntime) -> Result<(), Fail> {
    let mut text = Vec::with_capacity(rt.alloc(), 1_024)?;
    push_report(&mut text, false, End::Done(0), &SHORT_RUN);
    assert!(rt;
        text.as_slice()
            == b"ended: done 0\nthreads: 1\nentries: 2\nbarriers: 0\nmoved: 0 objects, 0 bytes\nlive: 0 objects, 0 bytes\nextent: 0 of 1048576\nlast barrier: none\n".as_slice()
    );
    Ok(())
}

#[test]
fn a_run_with_evacuations(rt: HostRuntime) -> Result<(), Fail> {
    let mut text = Vec::with_capacity(rt.alloc(), 1_024)?;
    push_report(&mut text, true, End::Done(0), &SHORT_RUN);
    assert!(rt;
        text.as_slice()
            == b"ended: done 0\nthreads: 1\nentries: 2\nbarriers: 0\nmoved: 0 objects, 0 bytes\nlive: 0 objects, 0 bytes\nextent: 0 of 1048576\nlast barrier: none\nevacuated: 0 sub-heaps\n".as_slice()
    );
    Ok(())
}

#[test]
fn the_greatest_numbers(rt: HostRuntime) -> Result<(), Fail> {
    let mut text = Vec::with_capacity(rt.alloc(), 1_024)?;
    let most = u64::MAX;
    let report = Report {
        threads: u32::MAX,
        entries: u32::MAX,
        barriers: most,
        moved_objects: most,
        moved_bytes: most,
        emptied: u32::MAX,
        live_objects: u32::MAX,
        live_bytes: most,
        extent: most,
        heap: most,
        last: Some(LastBarrier {
            before: most,
            after: most,
            room: most,
        }),
    };
    push_report(&mut text, true, End::Trap(most, TrapKind::Store), &report);
    assert_eq!(rt; text.len(), 405);
    Ok(())
}

// The line of a status for a.c, whose text this is.
fn has_line<R: Abort>(
    rt: &R,
    alloc: Global,
    text: &[u8],
    status: Status,
    line: &[u8],
) -> Result<(), NoMemory> {
    assert!(rt; fault_line(alloc, "a.c", text, status)?.as_slice() == line);
    Ok(())
}

#[test]
fn lines(rt: HostRuntime) -> Result<(), Fail> {
    let alloc = rt.alloc();
    has_line(
        &rt,
        alloc,
        b"",
        Status::Usage,
        b"usage: alaska FILE [options]\n",
    )?;
    has_line(
        &rt,
        alloc,
        b"",
        Status::ReadFault,
        b"alaska: can't read a.c\n",
    )?;
    has_line(
        &rt,
        alloc,
        b"",
        Status::NoMemory,
        b"alaska: out of memory\n",
    )?;
    let refused = Status::Refused(22, Kind::OutsideSubset(2));
    let line = b"a.c:1:23: refused: OutsideSubset 2\n";
    has_line(&rt, alloc, b"int main(void){return 1.5;}", refused, line)?;
    Ok(())
}

#[test]
fn lines_of_a_check(rt: HostRuntime) -> Result<(), Fail> {
    let broke = Verdict::Broke {
        rule: Rule::C5,
        place: 34,
        turns: 0,
    };
    let text = b"int main(void){int *p=NULL;return *p;}";
    let line = check_line(rt.alloc(), "a.c", text, broke)?;
    assert!(rt; line.as_slice() == b"a.c:1:35: broke C5 after 0 turns\n".as_slice());
    assert_eq!(rt; Status::Checked(broke).number(), 12);
    let ended = Verdict::Ended { exit: -1, turns: 2 };
    let line = check_line(rt.alloc(), "a.c", b"", ended)?;
    assert!(rt; line.as_slice() == b"checked: done -1 after 2 turns\n".as_slice());
    assert_eq!(rt; Status::Checked(ended).number(), 0);
    Ok(())
}

// Main and a thread write x.
const RACING: &[u8] =
    b"int x;int f(void *v){x=1;return 0;}\nint main(void){thrd_t t;thrd_create(&t,f,NULL);x=2;thrd_join(t,NULL);return 0;}";

const RACE: RaceNote = RaceNote::Race(
    RaceSide { place: 83, turn: 1 },
    RaceSide { place: 21, turn: 3 },
);

// The line of what was found of the races of a run of that text, which is a.c.
fn has_race_line<R: Abort>(
    rt: &R,
    alloc: Global,
    note: RaceNote,
    line: &[u8],
) -> Result<(), NoMemory> {
    let mut told = Vec::with_capacity(alloc, 200)?;
    push_race_line(&mut told, "a.c", RACING, note);
    assert!(rt; told.as_slice() == line);
    Ok(())
}

#[test]
fn lines_of_races(rt: HostRuntime) -> Result<(), Fail> {
    let alloc = rt.alloc();
    let line = b"race: a.c:2:48 and a.c:1:22, turns 1 and 3\n";
    has_race_line(&rt, alloc, RACE, line)?;
    has_race_line(&rt, alloc, RaceNote::Clean, b"race: none\n")?;
    let broke = RaceNote::Broke(Rule::C5, 1);
    has_race_line(&rt, alloc, broke, b"race: broke C5 after 1 turns\n")?;
    has_race_line(&rt, alloc, RaceNote::NotJudged, b"race: not judged\n")?;
    Ok(())
}

#[test]
fn statuses_of_races(rt: HostRuntime) -> Result<(), Fail> {
    let end = status_of(End::Done(6));
    assert_eq!(rt; status_with(RACE, end), Status::Raced(83, 21));
    assert_eq!(rt; status_with(RACE, end).number(), 13);
    assert_eq!(rt; status_with(RaceNote::Clean, end), end);
    assert_eq!(rt; status_with(RaceNote::Broke(Rule::C5, 1), end), end);
    assert_eq!(rt; status_with(RaceNote::NotJudged, end), Status::NoMemory);
    Ok(())
}

#[test]
fn lines_of_code(rt: HostRuntime) -> Result<(), Fail> {
    let alloc = rt.alloc();
    assert!(rt; built_line(alloc, 1_234)?.as_slice() == b"built: 1234 bytes\n".as_slice());
    let place = 27;
    let why = Why::NotPinned;
    let lines: [(Status, u8, &[u8]); 5] = [
        (Status::CodeTooDeep, 14, b"alaska: code too deep\n"),
        (Status::BadCode(3), 15, b"a.c: bad code at 3\n"),
        (
            Status::UnsafeCode { place, why },
            16,
            b"a.c: unsafe code at 27: NotPinned\n",
        ),
        (Status::CodeTooLong, 17, b"alaska: code too long\n"),
        (Status::FileTooLong, 18, b"a.c: too long\n"),
    ];
    for (status, number, line) in lines {
        has_line(&rt, alloc, b"", status, line)?;
        assert_eq!(rt; status.number(), number);
    }
    assert_eq!(rt; Status::Built.number(), 0);
    Ok(())
}

// How many bytes were read of the file of this name, of which so many are wanted at most, and whether that is all of it; none where the read
// failed.
fn bytes_read(
    alloc: Global,
    shelf: &mut MemShelf,
    name: &str,
    most: usize,
) -> Result<Option<(usize, bool)>, NoMemory> {
    match read_text(alloc, shelf, name, most)? {
        TextRead::Whole(text) => Ok(Some((text.len(), true))),
        TextRead::Front(text) => Ok(Some((text.len(), false))),
        TextRead::Fault => Ok(None),
    }
}

// A shelf of one file of so many bytes, of which these reads fail.
fn shelf_of(alloc: Global, count: usize, failing: &[u32]) -> Result<MemShelf, NoMemory> {
    let mut files = Vec::new(alloc);
    let name = String::from_str(alloc, "a.c")?;
    files.push((name, vec![in alloc; b'i'; count]?))?;
    Ok(MemShelf::new(alloc, files, failing.to_vec(alloc)?)?)
}

#[test]
fn a_file_that_is_read(rt: HostRuntime) -> Result<(), Fail> {
    let alloc = rt.alloc();
    let mut shelf = shelf_of(alloc, 3, &[])?;
    let whole = bytes_read(alloc, &mut shelf, "a.c", MOST_BYTES)?;
    assert_eq!(rt; whole, Some((3, true)));
    let front = bytes_read(alloc, &mut shelf, "a.c", 2)?;
    assert_eq!(rt; front, Some((2, false)));
    let none = bytes_read(alloc, &mut shelf, "b.c", MOST_BYTES)?;
    assert_eq!(rt; none, None);
    Ok(())
}

#[test]
fn a_file_longer_than_a_text(rt: HostRuntime) -> Result<(), Fail> {
    let alloc = rt.alloc();
    let count = MOST_BYTES + 1;
    let mut shelf = shelf_of(alloc, count, &[])?;
    let front = bytes_read(alloc, &mut shelf, "a.c", MOST_BYTES)?;
    assert_eq!(rt; front, Some((MOST_BYTES, false)));
    let whole = bytes_read(alloc, &mut shelf, "a.c", count)?;
    assert_eq!(rt; whole, Some((count, true)));
    Ok(())
}

// The second step of reading a long file may fail as the first may.
#[test]
fn a_second_read_that_fails(rt: HostRuntime) -> Result<(), Fail> {
    let alloc = rt.alloc();
    let mut shelf = shelf_of(alloc, MOST_BYTES + 1, &[2])?;
    let none = bytes_read(alloc, &mut shelf, "a.c", MOST_BYTES + 1)?;
    assert_eq!(rt; none, None);
    Ok(())
}

#[test]
fn an_out_that_fails(rt: HostRuntime) -> Result<(), Fail> {
    let mut failing = Vec::new(rt.alloc());
    failing.push(1)?;
    let mut out = MemSink::new(rt.alloc(), 10, failing)?;
    let mut note = MemSink::new(rt.alloc(), 10, Vec::new(rt.alloc()))?;
    let status = write_ending(
        status_of(End::Done(6)),
        b"42\n",
        b"told\n",
        &mut out,
        &mut note,
    );
    assert_eq!(rt; status, Status::WriteFault);
    assert_eq!(rt; status.number(), 5);
    Ok(())
}
