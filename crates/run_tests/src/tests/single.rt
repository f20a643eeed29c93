//! Programs of one thread.

use super::running::{alone, run_of};
use ak_words::Rule;
use block_meaning::Turned;
use std::test::Fail;

const DEAD_POINTER: &[u8] =
    b"int main(void){int *p=malloc(4);free(p);int *q=p;printf(\"ok\\n\");return 0;}";

const COMPARED: &[u8] =
    b"int main(void){int *p=malloc(4);free(p);int *q=p;printf(\"ok\\n\");if(q==p)printf(\"same\\n\");return 0;}";

const BEHIND: &[u8] = b"int a[2];int b[2];int main(void){printf(\"%d\\n\",a+2==b);return 0;}";

const NULL: &[u8] = b"int main(void){int *p=NULL;*p=1;return 0;}";

const NUMBERS: &[u8] = b"int main(void){unsigned char c=300;\
printf(\"%d %u %d %d %d\\n\",c,0u-1u,-7/2,-7%2,-8>>1);return 0;}";

const MEMBERS: &[u8] = b"struct s{char a;int b;char c;long d;};struct s x;\
int main(void){char *p=(char *)&x;printf(\"%ld %ld %ld %ld %lu\\n\",\
(char *)&x.a-p,(char *)&x.b-p,(char *)&x.c-p,(char *)&x.d-p,sizeof(struct s));return 7;}";

#[test]
fn they_print(rt: HostRuntime) -> Result<(), Fail> {
    for (text, turned, output) in [
        (DEAD_POINTER, Turned::Ended(0), b"ok\n".as_slice()),
        (COMPARED, Turned::Broke(Rule::C9, 68), b"ok\n"),
        (BEHIND, Turned::Ended(0), b"0\n"),
        (NULL, Turned::Broke(Rule::C5, 27), b""),
        (NUMBERS, Turned::Ended(0), b"44 4294967295 -3 -1 -4\n"),
        (MEMBERS, Turned::Ended(7), b"0 4 8 16 24\n"),
    ] {
        let mut run = run_of(rt.alloc(), text)?;
        assert_eq!(rt; alone(&mut run, 100), Some(turned));
        assert_eq!(rt; run.output(), output);
    }
    Ok(())
}
