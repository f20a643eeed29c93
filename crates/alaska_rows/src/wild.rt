//! Programs that leave their objects, and that ask for more than there is.

use crate::in_memory::{NONE_FAILS, call_over};
use crate::{Row, show};
use ak_words::NoMemory;
use std::alloc::Global;
use std::io;
use std::marker::Sync;
use std::sync::Wait;
use std::thread::Threads;

// A call, and the text that it runs.
#[derive(Clone, Copy)]
struct Wild(Row, &'static str);

const WILD: [Wild; 4] = [
    Wild(
        Row("alaska a.c", "ended"),
        "int main(void){char *p=malloc(16);p[100000000]=1;return 0;}",
    ),
    Wild(
        Row("alaska a.c", "ended"),
        "int main(void){char *p=malloc(16);p[20]=1;return 0;}",
    ),
    Wild(
        Row("alaska a.c", "ended barriers"),
        "int main(void){char *p=malloc(16777217);printf(\"%d\\n\",p==NULL);return 0;}",
    ),
    Wild(
        Row("alaska a.c", "ended threads"),
        "int f(void *v){return 0;}int main(void){thrd_t t;int k=0;int r=0;while(r==0){r=thrd_create(&t,f,NULL);k++;}printf(\"%d %d\\n\",k,r);return 0;}",
    ),
];

/// Runs each program.
pub fn show_wild<R: Threads + Wait + Sync + Print>(rt: &R, alloc: Global) -> io::Result<()> {
    for Wild(row, text) in &WILD {
        println!(rt; "> {text}")?;
        match call_over(rt, alloc, row.0, text.as_bytes(), &NONE_FAILS) {
            Ok(shown) => show(rt, row, &shown)?,
            Err(NoMemory) => println!(rt; "no memory")?,
        }
    }
    Ok(())
}
