ghost use Rattle.std.specs.Prelude.{◌≡◌, IfOk};
ghost use Rattle.c_tree.specs.TypedViews.{typed_view};
ghost use Rattle.source_tree.specs.SharedViews.{program_of};

use ak_words::{IntType, NoMemory, Num};
use c_tree::typed::{CType, Expr, ExprNode, Func, Stmt, StmtNode, Typed};
use source_tree::share;
use source_tree::tree::{SharedNode, SharedProgram, SharedStmt};
use std::alloc::Global;
use std::rc::Rc;
use std::test::Fail;

// A caller, proved from the contracts alone: a program that two may hold.
fn held_by_two(
    alloc: Global,
    typed: Typed,
) -> Result<(Rc<SharedProgram>, Rc<SharedProgram>), NoMemory>
    ensures one { IfOk result (λ p. program_of p.0.value ≡ typed_view typed) }
    ensures other { IfOk result (λ p. program_of p.1.value ≡ typed_view typed) }
{
    let one = Rc::new(alloc, share(alloc, typed)?)?;
    let other = one.clone()?;
    Ok((one, other))
}

// `int main(void){return 42;}`
fn answer(alloc: Global) -> Result<Typed, NoMemory> {
    let int = CType::Int(IntType::INT);
    let value = Expr {
        place: 22,
        ty: int,
        node: ExprNode::Num(Num::int(42)),
    };
    let leave = Stmt {
        place: 15,
        node: StmtNode::Return(Some(value)),
    };
    let mut body = Vec::new(alloc);
    body.push(leave)?;
    let mut funcs = Vec::new(alloc);
    funcs.push(Func {
        params: 0,
        locals: Vec::new(alloc),
        result: CType::Int(IntType::INT),
        body,
    })?;
    Ok(Typed {
        structs: Vec::new(alloc),
        globals: Vec::new(alloc),
        literals: Vec::new(alloc),
        funcs,
        main: 0,
    })
}

// The number that a body returns, if it only returns a number.
fn returned(program: &SharedProgram) -> Option<Num> {
    let body = &program.funcs.first()?.body;
    match &**body.stmts.first()? {
        SharedStmt::Return(_, Some(e)) => match &e.node {
            SharedNode::Num(n) => Some(*n),
            _ => None,
        },
        _ => None,
    }
}

#[test]
fn a_shared_program(rt: HostRuntime) -> Result<(), Fail> {
    let alloc = rt.alloc();
    let (one, other) = held_by_two(alloc, answer(alloc)?)?;
    assert_eq!(rt; returned(&one), Some(Num::int(42)));
    assert_eq!(rt; returned(&other), Some(Num::int(42)));
    Ok(())
}
