//! Operators on values (C11 6.3, 6.5).

ghost use Rattle.std.specs.Prelude.{◌≡◌, IfOk, map, Ok};
ghost use Rattle.ak_words.specs.IntType.{long};
ghost use Rattle.ak_words.specs.Num.{num};
ghost use Rattle.block_store.specs.declared.values.Value.TheVariants as values;
ghost use Rattle.block_store.specs.Blocks.{Blocks};
ghost use Rattle.c_tree.specs.TypedViews.{type_view, layout_view};
ghost use Rattle.c_meaning.specs.Library.{addend};
ghost use Rattle.c_meaning.specs.Values.{int_of, truth_of, opposite, int_result, long_result, pointer_of, value_of, converted, negates, tests, selects, of_one, on_numbers, forward, backward, distance, on_pointers, of_two, updated, operand_types, computed, converted_result};

use crate::pointers;
use ak_words::{IntType, NoMemory, Num, Op, Rule, apply, convert};
use block_store::{Ptr, Store, Value};
use c_meaning::types::{element_size, operand_types};
use c_tree::typed::{CType, Layout};

/// The int that a test gives.
pub fn int_of(holds: bool) -> Value
    ensures { result ≡ int_of holds }
{
    Value::Num(Num::int(i32::from(holds)))
}

/// Whether a value counts as true, or C9 of a dead block.
pub fn truth_of(store: &Store, v: Value) -> Result<bool, Rule>
    ensures { result ≡ truth_of store.now v }
{
    match v {
        Value::Num(n) => Ok(n.value != 0),
        Value::Pointer(p) => pointers::tested(store, p),
    }
}

/// A conversion to a type.
pub fn converted(t: &CType, v: Value) -> Value
    ensures { result ≡ converted (type_view t.now) v }
{
    match (t, v) {
        (CType::Int(t), Value::Num(n)) => Value::Num(convert(n, *t)),
        (_, v) => v,
    }
}

/// What is added where a number is added, or where it is taken away.
pub fn addend(away: bool, n: Num) -> Num
    ensures { result ≡ addend away n }
{
    if away {
        Num::wrapping(n.ty, 0 - n.value)
    } else {
        n
    }
}

// A pointer as a value.
fn pointer_of(p: Result<Ptr, Rule>) -> Result<Value, Rule>
    ensures { result ≡ pointer_of p }
{
    match p {
        Ok(p) => Ok(Value::Pointer(p)),
        Err(rule) => Err(rule),
    }
}

// A number as a value.
fn value_of(n: Result<Num, Rule>) -> Result<Value, Rule>
    ensures { result ≡ value_of n }
{
    match n {
        Ok(n) => Ok(Value::Num(n)),
        Err(rule) => Err(rule),
    }
}

// A test's answer as a value.
fn int_result(answer: Result<bool, Rule>) -> Result<Value, Rule>
    ensures { result ≡ int_result answer }
{
    match answer {
        Ok(holds) => Ok(int_of(holds)),
        Err(rule) => Err(rule),
    }
}

// A long.
fn long_value(z: i64) -> Value
    ensures { result ≡ values.Num (num long z) }
{
    Value::Num(Num::wrapping(IntType::long(), i128::from(z)))
}

// A whole number as a value.
fn long_result(answer: Result<i64, Rule>) -> Result<Value, Rule>
    ensures { result ≡ long_result answer }
{
    match answer {
        Ok(z) => Ok(long_value(z)),
        Err(rule) => Err(rule),
    }
}

// The opposite of a test's answer.
fn opposite(answer: Result<bool, Rule>) -> Result<bool, Rule>
    ensures { result ≡ opposite answer }
{
    match answer {
        Ok(holds) => Ok(!holds),
        Err(rule) => Err(rule),
    }
}

/// Whether a value is 0 or null.
pub fn negated(store: &Store, v: Value) -> Result<Value, Rule>
    ensures { result ≡ of_one store.now negates v }
{
    int_result(opposite(truth_of(store, v)))
}

/// Whether a value isn't 0 or null.
pub fn tested(store: &Store, v: Value) -> Result<Value, Rule>
    ensures { result ≡ of_one store.now tests v }
{
    int_result(truth_of(store, v))
}

/// The pointer to the member at this offset of the struct that a pointer points to.
pub fn selected(store: &Store, offset: u32, v: Value) -> Result<Value, Rule>
    ensures { result ≡ of_one store.now (selects offset) v }
{
    match v {
        Value::Pointer(p) => pointer_of(pointers::moved(store, p, i128::from(offset))),
        Value::Num(_) => Err(Rule::C16),
    }
}

/// An operator on numbers.
pub fn on_numbers(op: Op, a: Value, b: Value) -> Result<Value, Rule>
    ensures { (blocks : Blocks) → result ≡ of_two blocks (on_numbers op) a b }
{
    match (a, b) {
        (Value::Num(a), Value::Num(b)) => value_of(apply(op, a, b)),
        (_, _) => Err(Rule::C16),
    }
}

/// A pointer plus a number of elements of this size, whichever stands first.
pub fn forward(store: &Store, size: u32, a: Value, b: Value) -> Result<Value, Rule>
    ensures { result ≡ of_two store.now (forward size) a b }
{
    match (a, b) {
        (Value::Pointer(p), Value::Num(n)) | (Value::Num(n), Value::Pointer(p)) => {
            pointer_of(pointers::forward(store, p, n, size))
        }
        (_, _) => Err(Rule::C16),
    }
}

/// A pointer minus a number of elements of this size.
pub fn backward(store: &Store, size: u32, a: Value, b: Value) -> Result<Value, Rule>
    ensures { result ≡ of_two store.now (backward size) a b }
{
    match (a, b) {
        (Value::Pointer(p), Value::Num(n)) => pointer_of(pointers::backward(store, p, n, size)),
        (_, _) => Err(Rule::C16),
    }
}

/// The elements of this size between two pointers. A size of 0, which no element has, is answered as want of memory.
pub fn distance(
    store: &Store,
    size: u32,
    a: Value,
    b: Value,
) -> Result<Result<Value, Rule>, NoMemory>
    ensures { IfOk result (λ answer. answer ≡ of_two store.now (distance size) a b) }
{
    match (a, b) {
        (Value::Pointer(p), Value::Pointer(q)) => {
            let distance = pointers::difference(store, p, q, size)?;
            Ok(long_result(distance))
        }
        (_, _) => Ok(Err(Rule::C16)),
    }
}

/// A comparison of two pointers.
pub fn on_pointers(store: &Store, op: Op, a: Value, b: Value) -> Result<Value, Rule>
    ensures { result ≡ of_two store.now (on_pointers op) a b }
{
    match (a, b) {
        (Value::Pointer(p), Value::Pointer(q)) => int_result(pointers::compared(store, op, p, q)),
        (_, _) => Err(Rule::C16),
    }
}

// The same operation, and its result converted to a type.
fn computed(t: &CType, op: Op, a: Num, b: Num) -> Result<Value, Rule>
    ensures { result ≡ converted_result (type_view t.now) (computed op (operand_types op a.ty b.ty) a b) }
{
    let (left, right) = operand_types(op, a.ty, b.ty);
    match apply(op, convert(a, left), convert(b, right)) {
        Ok(n) => Ok(converted(t, Value::Num(n))),
        Err(rule) => Err(rule),
    }
}

/// What `a op= b` stores in an object of this type.
pub fn updated(
    structs: &[Layout],
    store: &Store,
    t: &CType,
    op: Op,
    a: Value,
    b: Value,
) -> Result<Result<Value, Rule>, NoMemory>
    ensures { IfOk result (λ answer. answer ≡ updated (map layout_view structs.now) store.now (type_view t.now) op a b) }
{
    match (a, b) {
        (Value::Num(a), Value::Num(b)) => Ok(computed(t, op, a, b)),
        (Value::Pointer(p), Value::Num(n)) => {
            let size = element_size(t, structs)?;
            match op {
                Op::Add => Ok(pointer_of(pointers::forward(store, p, n, size))),
                Op::Sub => Ok(pointer_of(pointers::backward(store, p, n, size))),
                _ => Ok(Err(Rule::C16)),
            }
        }
        (_, _) => Ok(Err(Rule::C16)),
    }
}
