//! Programs of more threads, in many orders.

use super::running::{answered, run_of, step};
use block_meaning::{Answer, SourceRun, Turned};
use std::test::Fail;

const COUNTERS: &[u8] = b"struct acc{mtx_t m;long n;};\n\
int work(void *v){struct acc *a=v;\n\
for(int i=0;i<1000;i++){mtx_lock(&a->m);a->n=a->n+1;mtx_unlock(&a->m);}return 0;}\n\
int main(void){struct acc *a=malloc(sizeof(struct acc));\n\
mtx_init(&a->m,mtx_plain);a->n=0;thrd_t x;thrd_t y;\n\
thrd_create(&x,work,a);thrd_create(&y,work,a);\n\
thrd_join(x,NULL);thrd_join(y,NULL);\n\
printf(\"%ld\\n\",a->n);free(a);return 0;}\n";

// A run of three threads in an order that this seed gives, as far as its end or a broken rule; nothing after this many picks.
fn in_an_order(run: &mut SourceRun, seed: u64, picks: u32) -> Option<Turned> {
    let mut state = seed;
    for _ in 0..picks {
        state = state
            .wrapping_mul(6364136223846793005)
            .wrapping_add(1442695040888963407);
        let thread = (state >> 33) % 3;
        match answered(run, thread as u32) {
            None => {}
            Some(Turned::Went) => {}
            Some(Turned::Blocked) => {}
            Some(turned) => return Some(turned),
        }
    }
    None
}

#[test]
fn two_threads_count_in_a_hundred_orders(rt: HostRuntime) -> Result<(), Fail> {
    for seed in 0..100 {
        let mut run = run_of(rt.alloc(), COUNTERS)?;
        let turned = in_an_order(&mut run, seed, 1_000_000);
        assert_eq!(rt; turned, Some(Turned::Ended(0)), "in order {seed}");
        assert_eq!(rt; run.output(), b"2000\n".as_slice());
    }
    Ok(())
}

const ALLOCATIONS: &[u8] =
    b"int main(void){char *p=malloc(5);char *q=malloc(8589934592);return q==NULL;}\n";

#[test]
fn allocations_tell_their_bytes(rt: HostRuntime) -> Result<(), Fail> {
    let mut run = run_of(rt.alloc(), ALLOCATIONS)?;
    assert_eq!(rt; run.asked(), None);
    assert_eq!(rt; step(&mut run, 0, Answer::Plain), Some(Turned::Unfit));
    assert_eq!(rt; run.asked(), Some(5));
    assert_eq!(rt; step(&mut run, 0, Answer::Got), Some(Turned::Went));
    assert_eq!(rt; run.asked(), None);
    assert_eq!(rt; step(&mut run, 0, Answer::Plain), Some(Turned::Unfit));
    assert_eq!(rt; run.asked(), Some(8589934592));
    assert_eq!(rt; step(&mut run, 0, Answer::None), Some(Turned::Went));
    assert_eq!(rt; run.threads(), 1);
    Ok(())
}
