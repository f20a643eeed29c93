//! The operations whose operands are there.

ghost use Rattle.std.specs.Prelude.{◌≡◌, IfOk};
ghost use Rattle.c_meaning.specs.Values.{of_one, of_two};
ghost use Rattle.source_state.specs.Operations.{unary_of, binary_of};

use ak_words::{NoMemory, Rule};
use block_store::{Store, Value};
use source_state::operations::{Binary, Unary};
use source_values::{
    backward, converted, distance, forward, negated, on_numbers, on_pointers, selected, tested,
};

/// An operation on one value.
pub fn of_one(store: &Store, op: &Unary, v: Value) -> Result<Value, Rule>
    ensures { result ≡ of_one store.now (unary_of op.now) v }
{
    match op {
        Unary::Converts(t) => Ok(converted(t, v)),
        Unary::Negates => negated(store, v),
        Unary::Tests => tested(store, v),
        Unary::Selects(offset) => selected(store, *offset, v),
    }
}

/// An operation on two values. The elements of size 0 between two pointers, which no program asks for, are answered as
/// want of memory.
pub fn of_two(
    store: &Store,
    op: Binary,
    a: Value,
    b: Value,
) -> Result<Result<Value, Rule>, NoMemory>
    ensures { IfOk result (λ answer. answer ≡ of_two store.now (binary_of op) a b) }
{
    match op {
        Binary::Numbers(op) => Ok(on_numbers(op, a, b)),
        Binary::Forward(size) => Ok(forward(store, size, a, b)),
        Binary::Backward(size) => Ok(backward(store, size, a, b)),
        Binary::Distance(size) => distance(store, size, a, b),
        Binary::Pointers(op) => Ok(on_pointers(store, op, a, b)),
    }
}
