//! Texts that are compiled in one call, a text that is refused, and a caller that takes apart what the contract says.
ghost use Rattle.std.specs.Prelude.{◌≡◌, ◌≤◌, ℕ, List, length, true, IfOk};
ghost use Rattle.block_store.specs.Runs.{Pick};
ghost use Rattle.c_lex.specs.Refusals.{IfRefused};
ghost use Rattle.c_lex.specs.declared.token.Token.{Token as LexToken};
ghost use Rattle.c_meaning.specs.Meaning.{shown};
ghost use Rattle.alaska_run.specs.Reading.{IsRead};
ghost use Rattle.c_tree.specs.Typed.{Typed as Tree};
ghost use Rattle.c_tree.specs.TypedViews.{typed_view};
ghost use Rattle.struct_ir.specs.meaning.Start.{start};
ghost use Rattle.struct_ir.specs.meaning.Threads.{program_of};
ghost use Rattle.pin_checker.specs.CheckedViews.{program_in};
ghost use Rattle.struct_ir.specs.Linear.{entry_of, linear};
ghost use Rattle.struct_ir.specs.LinearViews.{code_view};
ghost use Rattle.struct_ir.specs.Pins.{PinSafe};
ghost use Rattle.struct_ir.specs.ValidCode.{is_valid_code};

use alaska_run::{Built, compile};
use c_lex::CompileFault;
use std::alloc::Global;

// A caller, proved from the contract alone: a text is in the subset where it is compiled, and where it is refused it
// isn't; what it is compiled to keeps each of its turns, and its machine's code is valid and safe for moves.
fn parts(alloc: Global, text: &[u8]) -> Result<Built, CompileFault>
    requires { length text.now ≤ 1048576 }
    ensures in_subset { IfOk result (λ b. (tokens : List LexToken) × IsRead text.now tokens (typed_view b.typed)) }
    ensures outside { IfRefused result (λ r. (tokens : List LexToken) (t : Tree) → IsRead text.now tokens t → ⊥) }
    ensures turns { IfOk result (λ b. (order : List Pick) → Rattle.block_store.specs.Runs.shown (program_of (program_in b.checked)) (start (program_in b.checked)) order ≡ shown (typed_view b.typed) order) }
    ensures valid { IfOk result (λ b. is_valid_code (code_view b.code) ≡ true) }
    ensures safe { IfOk result (λ b. (f : ℕ) → PinSafe (linear (code_view b.code).funcs) (entry_of f)) }
{
    alaska_run::laws::read_each_text_once();
    compile(alloc, text)
}

/// A text with a loop, a call and a pointer is compiled.
#[test]
fn a_text_is_compiled(rt: HostRuntime) {
    let built = parts(
        rt.alloc(),
        b"int f(int *p){return p[0];}\n\
        int main(void){int *p=malloc(40);int s=0;for(int i=0;i<10;i++){p[0]=i;s=s+f(p);}\n\
        printf(\"%d\\n\",s);free(p);return 0;}\n",
    );
    match built {
        Ok(built) => {
            assert!(rt; built.typed.funcs.len() == 2);
            assert!(rt; built.code.funcs.len() == 2);
        }
        Err(_) => assert!(rt; false),
    }
}

/// A text with a name that isn't declared is refused there.
#[test]
fn a_text_is_refused(rt: HostRuntime) {
    let place = match parts(rt.alloc(), b"int main(void){return x;}\n") {
        Err(CompileFault::Refused(refusal)) => refusal.place,
        _ => 0,
    };
    assert!(rt; place == 22);
}
