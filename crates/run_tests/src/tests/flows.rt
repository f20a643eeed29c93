use super::programs::{empty, int};
use ak_words::{NoMemory, Num, Op, Rule};
use block_store::{Store, Value};
use source_expressions::expressions::expr;
use source_state::control::{Pending, Progress, Use};
use source_state::{Locals, Variable};
use source_tree::tree::{SharedExpr, SharedNode, TwoForm};
use std::alloc::Global;
use std::rc::Rc;

// `x - 1`, where `x` is local 0 and stands at place 4.
fn one_less(alloc: Global) -> Result<Rc<SharedExpr>, NoMemory> {
    let x = int(alloc, 4, SharedNode::Local(0))?;
    let one = int(alloc, 8, SharedNode::Num(Num::int(1)))?;
    int(alloc, 6, SharedNode::Two(TwoForm::Numbers(Op::Sub), x, one))
}

#[test]
fn a_local_is_used(rt: HostRuntime) -> Result<(), NoMemory> {
    let k = Rc::new(rt.alloc(), Use::ToCaller)?;
    let store = Store::new(rt.alloc());
    let mut variables = Vec::new(rt.alloc());
    variables.push(Variable::Holds(Value::Num(Num::int(3))))?;
    let locals = Locals::new(rt.alloc(), variables);
    let e = one_less(rt.alloc())?;
    let flow = expr(&e, rt.alloc(), &empty(rt.alloc()), &locals, &store, &k)?;
    let two = Value::Num(Num::int(2));
    assert!(rt; matches!(&flow, Progress::Gives(v) if *v == two));
    Ok(())
}

#[test]
fn a_local_without_a_value(rt: HostRuntime) -> Result<(), NoMemory> {
    let k = Rc::new(rt.alloc(), Use::ToCaller)?;
    let store = Store::new(rt.alloc());
    let locals = Locals::new(rt.alloc(), Vec::new(rt.alloc()));
    let e = one_less(rt.alloc())?;
    let flow = expr(&e, rt.alloc(), &empty(rt.alloc()), &locals, &store, &k)?;
    assert!(rt; matches!(&flow, Progress::Ends(Pending::Broke(Rule::C4, 4))));
    Ok(())
}
