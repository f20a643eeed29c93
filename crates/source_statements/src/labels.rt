//! Which label of a `switch` a value chooses.

ghost use Rattle.std.specs.Prelude.{◌≡◌, map};
ghost use Rattle.c_tree.specs.TypedViews.{label_view};
ghost use Rattle.c_meaning.specs.Switches.{is_number, default_from, chosen, starts_at};
ghost use Rattle.source_statements.specs.inner.Labels.{is_case};

use ak_words::Num;
use block_store::Value;
use c_tree::typed::Label;

// Whether a value is this number.
fn is_number(n: Num, v: Value) -> bool
    ensures { result ≡ is_number n v }
{
    match v {
        Value::Num(m) => m.value == n.value,
        Value::Pointer(_) => false,
    }
}

// Whether a label is a case of this value.
fn is_case(label: &Label, v: Value) -> bool
    ensures { result ≡ is_case (label_view label.now) v }
{
    match label.value {
        None => false,
        Some(n) => is_number(n, v),
    }
}

// The number of the default, or that behind the last label.
fn default_number(labels: &[Label]) -> usize
    ensures { result ≡ default_from 0 (map label_view labels.now) }
{
    for (number, label) in labels.iter().enumerate() {
        if label.value.is_none() {
            return number;
        }
    }
    labels.len()
}

// The number of the label that a value chooses: that of equal value before the default.
#[tactic(auto, using(crate::proofs::Cases::equal_more))]
fn chosen(labels: &[Label], v: Value) -> usize
    ensures { result ≡ chosen (map label_view labels.now) v }
{
    for (number, label) in labels.iter().enumerate() {
        if is_case(label, v) {
            return number;
        }
    }
    default_number(labels)
}

/// The statement at which the label stands that a value chooses, if there is one.
pub fn start(labels: &[Label], v: Value) -> Option<usize>
    ensures { result ≡ starts_at (map label_view labels.now) (chosen (map label_view labels.now) v) }
{
    match labels.get(chosen(labels, v)) {
        None => None,
        Some(label) => Some(label.at as usize),
    }
}
