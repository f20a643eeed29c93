//! A shelf and sinks that fail their calls, in turn and together: how the call ends, and what then stands on each sink.

use crate::in_memory::{Failing, NONE_FAILS, call_over};
use crate::{Row, show};
use ak_words::NoMemory;
use std::alloc::Global;
use std::io;
use std::marker::Sync;
use std::sync::Wait;
use std::thread::Threads;

// Which calls fail.
const SHELF: Failing = Failing {
    shelf: Some(1),
    ..NONE_FAILS
};

const OUT: Failing = Failing {
    out: Some(1),
    ..NONE_FAILS
};

const NOTE: Failing = Failing {
    note: Some(1),
    ..NONE_FAILS
};

const SHELF_AND_OUT: Failing = Failing {
    out: Some(1),
    ..SHELF
};

const SHELF_AND_NOTE: Failing = Failing {
    note: Some(1),
    ..SHELF
};

const OUT_AND_NOTE: Failing = Failing {
    note: Some(1),
    ..OUT
};

const FIRST_CALLS: Failing = Failing {
    note: Some(1),
    ..SHELF_AND_OUT
};

const SECOND_CALLS: Failing = Failing {
    shelf: Some(2),
    out: Some(2),
    note: Some(2),
};

// Texts: one that prints, one that prints nothing, one that is refused, one that prints and then stores through null, and one that prints and in
// which two accesses race.
const PRINTS: &str = "int main(void){int a=6;int b=7;printf(\"%d\\n\",a*b);return a;}";

const SILENT: &str = "int main(void){}";

const REFUSED: &str = "int main(void){return 1.5;}";

const TRAPS: &str = "int main(void){printf(\"hi\\n\");int *p=NULL;*p=1;return 0;}";

const RACES: &str =
    "int x;int f(void *v){x=1;return 0;}int main(void){thrd_t t;thrd_create(&t,f,NULL);x=2;printf(\"%d\\n\",x);thrd_join(t,NULL);return 0;}";

const RUN: Row = Row("alaska a.c", "all");

const RACE: Row = Row("alaska a.c --mode race", "ended race");

const CHURN: Row = Row("alaska --mode churn --seed 1 --size 3", "ended live");

// A call, the text that it reads, and what fails.
#[derive(Clone, Copy)]
struct Fault(Row, &'static str, Failing);

const FAULTS: [Fault; 25] = [
    Fault(RUN, PRINTS, SHELF),
    Fault(RUN, PRINTS, OUT),
    Fault(RUN, PRINTS, NOTE),
    Fault(RUN, PRINTS, SHELF_AND_OUT),
    Fault(RUN, PRINTS, SHELF_AND_NOTE),
    Fault(RUN, PRINTS, OUT_AND_NOTE),
    Fault(RUN, PRINTS, FIRST_CALLS),
    Fault(RUN, PRINTS, SECOND_CALLS),
    Fault(Row("alaska b.c", "all"), PRINTS, NONE_FAILS),
    Fault(Row("alaska b.c", "all"), PRINTS, NOTE),
    Fault(RUN, SILENT, OUT),
    Fault(RUN, SILENT, NOTE),
    Fault(RUN, REFUSED, OUT),
    Fault(RUN, REFUSED, NOTE),
    Fault(Row("alaska a.c", "ended"), TRAPS, NONE_FAILS),
    Fault(RUN, TRAPS, OUT),
    Fault(RUN, TRAPS, NOTE),
    Fault(Row("alaska", "all"), PRINTS, SHELF_AND_OUT),
    Fault(Row("alaska", "all"), PRINTS, NOTE),
    Fault(CHURN, PRINTS, SHELF),
    Fault(CHURN, PRINTS, OUT),
    Fault(CHURN, PRINTS, NOTE),
    Fault(RACE, RACES, NONE_FAILS),
    Fault(RACE, RACES, OUT),
    Fault(RACE, RACES, NOTE),
];

// Which call of this one fails.
fn show_failing<R: Print>(rt: &R, name: &str, call: Option<u32>) -> io::Result<()> {
    match call {
        Some(call) => println!(rt; "> {name} fails call {call}"),
        None => Ok(()),
    }
}

fn show_fault<R: Threads + Wait + Sync + Print>(
    rt: &R,
    alloc: Global,
    fault: &Fault,
) -> io::Result<()> {
    let Fault(row, text, failing) = fault;
    println!(rt; "> {text}")?;
    show_failing(rt, "the shelf", failing.shelf)?;
    show_failing(rt, "out", failing.out)?;
    show_failing(rt, "note", failing.note)?;
    match call_over(rt, alloc, row.0, text.as_bytes(), failing) {
        Ok(shown) => show(rt, row, &shown),
        Err(NoMemory) => println!(rt; "no memory"),
    }
}

/// Makes each call.
pub fn show_faults<R: Threads + Wait + Sync + Print>(rt: &R, alloc: Global) -> io::Result<()> {
    for fault in &FAULTS {
        show_fault(rt, alloc, fault)?;
    }
    Ok(())
}
