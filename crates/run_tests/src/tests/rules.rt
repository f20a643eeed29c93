//! Each rule, broken once.

use super::running::end_of;
use ak_words::Rule;
use block_meaning::Turned;
use std::test::Fail;

#[test]
fn rules_of_values_and_pointers_are_broken(rt: HostRuntime) -> Result<(), Fail> {
    for (text, rule, place) in [
        (
            b"int main(void){int x=2147483647;return x+1;}".as_slice(),
            Rule::C1,
            40,
        ),
        (b"int main(void){int x=0;return 1/x;}", Rule::C2, 31),
        (b"int main(void){int x=32;return 1<<x;}", Rule::C3, 32),
        (b"int main(void){int x;return x;}", Rule::C4, 28),
        (
            b"int main(void){int *p=malloc(4);p[1]=1;return 0;}",
            Rule::C5,
            33,
        ),
        (
            b"int main(void){char *c=malloc(8);int *p=(int *)(c+1);*p=1;return 0;}",
            Rule::C6,
            53,
        ),
        (
            b"int main(void){int *p=malloc(4);p=p+2;return 0;}",
            Rule::C7,
            35,
        ),
        (b"int a;int b;int main(void){return &a<&b;}", Rule::C8, 36),
    ] {
        assert_eq!(rt; end_of(rt.alloc(), text)?, Some(Turned::Broke(rule, place)));
    }
    Ok(())
}

#[test]
fn rules_of_lifetimes_and_calls_are_broken(rt: HostRuntime) -> Result<(), Fail> {
    for (text, rule, place) in [
        (
            b"int main(void){int *p=malloc(4);free(p);return p==NULL;}".as_slice(),
            Rule::C9,
            48,
        ),
        (
            b"int main(void){char *p=malloc(8);free(p);free(p);return 0;}",
            Rule::C10,
            41,
        ),
        (
            b"int main(void){char *p=malloc(8);free(p);p=realloc(p,16);return 0;}",
            Rule::C10,
            43,
        ),
        (
            b"int main(void){char *p=malloc(8);char *q=realloc(p,16);*p=1;return q!=NULL;}",
            Rule::C5,
            55,
        ),
        (
            b"char a[4];int main(void){memcpy(a,a+1,2);return 0;}",
            Rule::C11,
            25,
        ),
        (
            b"int main(void){char *s=\"a\";s[0]='b';return 0;}",
            Rule::C12,
            28,
        ),
        (
            b"mtx_t m;int main(void){mtx_lock(&m);mtx_lock(&m);return 0;}",
            Rule::C13,
            36,
        ),
        (
            b"int main(void){thrd_t t=0;thrd_join(t,NULL);return 0;}",
            Rule::C14,
            26,
        ),
        (b"int f(void){}int main(void){return f();}", Rule::C15, 35),
        (
            b"int a;int *p=NULL;int main(void){p=&a;char *c=(char *)&p;return *c;}",
            Rule::C16,
            64,
        ),
    ] {
        assert_eq!(rt; end_of(rt.alloc(), text)?, Some(Turned::Broke(rule, place)));
    }
    Ok(())
}
