//! A thread frees the block that main shares with it.

use super::running::{run_of, step};
use crate::order_runs::{OrderEnd, Pick, take_turns};
use ak_words::Rule;
use block_meaning::{Answer, Turned};
use std::test::Fail;

const TEXT: &[u8] = b"int *p;\n\
int f(void *v){free(p);return 0;}\n\
int main(void){p=malloc(4);*p=1;thrd_t t;thrd_create(&t,f,NULL);\n\
printf(\"%d\\n\",*p);thrd_join(t,NULL);return 0;}\n";

// Where the star in the printf stands.
const STAR: u32 = 121;

// Main's turns as far as its load of p for the printf: malloc, store p, load p, store 1, start, load p.
const BEGIN: [Answer; 6] = [
    Answer::Got,
    Answer::Plain,
    Answer::Plain,
    Answer::Plain,
    Answer::Got,
    Answer::Plain,
];

#[test]
fn the_first_turn_wants_an_answer(rt: HostRuntime) -> Result<(), Fail> {
    let mut run = run_of(rt.alloc(), TEXT)?;
    assert_eq!(rt; run.made(), 1);
    assert_eq!(rt; step(&mut run, 0, Answer::Plain), Some(Turned::Unfit));
    assert_eq!(rt; run.made(), 1);
    assert_eq!(rt; run.runs(1), false);
    Ok(())
}

#[test]
fn freed_before_its_last_use(rt: HostRuntime) -> Result<(), Fail> {
    let mut run = run_of(rt.alloc(), TEXT)?;
    for answer in BEGIN {
        assert_eq!(rt; step(&mut run, 0, answer), Some(Turned::Went));
    }
    for _ in 0..2 {
        assert_eq!(rt; step(&mut run, 1, Answer::Plain), Some(Turned::Went));
    }
    let broke = Turned::Broke(Rule::C5, STAR);
    for _ in 0..2 {
        assert_eq!(rt; step(&mut run, 0, Answer::Plain), Some(broke));
    }
    assert_eq!(rt; run.output(), b"".as_slice());
    Ok(())
}

#[test]
fn freed_after_its_last_use(rt: HostRuntime) -> Result<(), Fail> {
    let mut run = run_of(rt.alloc(), TEXT)?;
    for answer in BEGIN {
        assert_eq!(rt; step(&mut run, 0, answer), Some(Turned::Went));
    }
    for thread in [0, 0, 1, 1, 1, 0, 0] {
        assert_eq!(rt; step(&mut run, thread, Answer::Plain), Some(Turned::Went));
    }
    assert_eq!(rt; step(&mut run, 0, Answer::Plain), Some(Turned::Ended(0)));
    assert_eq!(rt; run.output(), b"1\n".as_slice());
    assert_eq!(rt;
        (run.ended(0), run.ended(1), run.ended(2)),
        (Some(0), Some(0), None)
    );
    assert_eq!(rt; run.made(), 3);
    assert_eq!(rt; run.runs(0), false);
    Ok(())
}

// Turns of main that take no answer of their own, and those of malloc and start; turns of the other thread.
const MAIN: Pick = Pick {
    thread: 0,
    answer: Answer::Plain,
};

const GOT: Pick = Pick {
    thread: 0,
    answer: Answer::Got,
};

const OTHER: Pick = Pick {
    thread: 1,
    answer: Answer::Plain,
};

const FREED_BEFORE: [Pick; 9] = [GOT, MAIN, MAIN, MAIN, GOT, MAIN, OTHER, OTHER, MAIN];

const FREED_AFTER: [Pick; 14] = [
    GOT, MAIN, MAIN, MAIN, GOT, MAIN, MAIN, MAIN, OTHER, OTHER, OTHER, MAIN, MAIN, MAIN,
];

const NOT_STARTED: [Pick; 2] = [GOT, OTHER];

#[test]
fn whole_orders(rt: HostRuntime) -> Result<(), Fail> {
    for (order, end) in [
        (FREED_BEFORE.as_slice(), OrderEnd::Broke(Rule::C5, 8)),
        (FREED_AFTER.as_slice(), OrderEnd::Reached),
        (NOT_STARTED.as_slice(), OrderEnd::NoRun(1)),
        (&[MAIN], OrderEnd::NoRun(0)),
    ] {
        let mut run = run_of(rt.alloc(), TEXT)?;
        assert_eq!(rt; take_turns(&mut run, order)?, end);
    }
    Ok(())
}
