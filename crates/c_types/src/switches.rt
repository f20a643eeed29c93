//! Switches: their expressions, and the labels and statements between their braces (C11 6.8.4.2).
ghost use Rattle.std.specs.Prelude.{◌≡◌, false, length, IfErr, OnOk};
ghost use Rattle.std.specs.List.{list_any};
ghost use Rattle.c_lex.specs.declared.refusal.CompileFault.TheVariants.{NoMemory};
ghost use Rattle.c_tree.specs.TypedForm as forms;
ghost use Rattle.c_tree.specs.Typed.{type_of, Expr as TypedExpr};
ghost use Rattle.c_tree.specs.TypedViews.{boxed_expr_view, stmt_view, label_view};
ghost use Rattle.c_typing.specs.Faults as faults;
ghost use Rattle.c_typing.specs.Faults.{Judged, Gives};
ghost use Rattle.c_typing.specs.Statements as rules;
ghost use Rattle.c_typing.specs.Statements.{switched_by, type_of_switch, has_value, has_default, label_fine, label_value, cased, defaulted, with_stmt, no_entries};
ghost use Rattle.type_context.specs.Telling.{Says, lacks_memory};
ghost use Rattle.c_types.specs.inner.Switches.{jumps_view, entries_view, value_view, typed_value, is_case, is_default, IsFaultMore};

use ak_words::{IntType, Num, promote};
use c_lex::{CompileFault, Kind, Refusal};
use c_tree::typed::{CType, Expr, Label, Stmt};
use std::alloc::Global;
use type_context::context::{count, within};
use type_context::faults::{as_fault, both, refused, unless};
use type_context::outcomes;
use type_rules::conversions::converted;

/// The labels of one switch, of which there are so many at most.
const MOST_LABELS: usize = 1024;

/// Which jumps may stand where a statement stands.
#[derive(Clone, Copy, Debug)]
pub(crate) struct Jumps {
    /// A `break`: in a loop or a switch.
    pub breaks: bool,
    /// A `continue`: in a loop.
    pub continues: bool,
}

impl Jumps {
    /// Directly in the body of a function: neither.
    pub(crate) fn in_function() -> Jumps
        ensures { jumps_view result ≡ forms.in_function }
    {
        Jumps {
            breaks: false,
            continues: false,
        }
    }

    /// In the body of a loop.
    pub(crate) fn in_loop() -> Jumps
        ensures { jumps_view result ≡ forms.in_loop }
    {
        Jumps {
            breaks: true,
            continues: true,
        }
    }

    /// Between the braces of a switch that stands there.
    pub(crate) fn in_switch(self) -> Jumps
        ensures { jumps_view result ≡ forms.in_switch (jumps_view self) }
    {
        Jumps {
            breaks: true,
            continues: self.continues,
        }
    }
}

/// What stands between the braces of a switch so far.
#[derive(Drop)]
pub(crate) struct Entries {
    /// The labels, each at the index of the statement that comes next.
    pub labels: Vec<Label>,
    /// The statements.
    pub body: Vec<Stmt>,
}

impl Entries {
    /// Before the first label and the first statement.
    pub(crate) fn none(alloc: Global) -> Entries
        ensures { entries_view result ≡ no_entries }
    {
        Entries {
            labels: Vec::new(alloc),
            body: Vec::new(alloc),
        }
    }

    // Whether a label of this value stands before.
    fn has_value(&self, z: i128) -> bool
        ensures { result ≡ has_value z (entries_view self.now).labels }
    {
        any_case(&self.labels, z)
    }

    // Whether a default stands before.
    #[tactic(auto, using(crate::proofs::LabelRows::any_is_default))]
    fn has_default(&self) -> bool
        ensures { result ≡ has_default (entries_view self.now).labels }
    {
        any_default(&self.labels)
    }

    // A label at its word: it differs from those before it, and is not too many.
    fn label_fine(&self, place: u32, again: bool) -> Result<(), Refusal>
        ensures { Says (λ _. tt) result (label_fine place again (entries_view self.now).labels) }
    {
        let once = unless(place, Kind::DoubleName, !again);
        outcomes::both_fine(once, within(place, 13, MOST_LABELS, self.labels.len()))
    }

    // One label more, at the statement that comes next.
    fn add_label(&mut self, value: Option<Num>) -> Result<(), CompileFault>
        ensures after { OnOk result (entries_view self.new ≡ rules.with_label (entries_view self.old) (label_view (record { value = value; at = length (entries_view self.old).body }))) }
        ensures memory { IfErr result (λ e. e ≡ NoMemory) }
    {
        let at = count(self.body.len())?;
        self.labels.push(Label { value, at })?;
        Ok(())
    }

    /// A case at its word, in a switch of this type.
    pub(crate) fn case(
        mut self,
        place: u32,
        t: IntType,
        value: Option<Num>,
    ) -> Result<Entries, CompileFault>
        ensures { Gives entries_view result (cased place t (entries_view self) value) }
    {
        let value = as_fault(label_value(place, t, value))?;
        as_fault(self.label_fine(place, self.has_value(value.value)))?;
        self.add_label(Some(value))?;
        Ok(self)
    }

    /// A default at its word.
    pub(crate) fn default(mut self, place: u32) -> Result<Entries, CompileFault>
        ensures { Gives entries_view result (defaulted place (entries_view self)) }
    {
        as_fault(self.label_fine(place, self.has_default()))?;
        self.add_label(None)?;
        Ok(self)
    }

    /// One statement more.
    pub(crate) fn statement(mut self, s: Stmt) -> Result<Entries, CompileFault>
        ensures { Gives entries_view result (faults.typed (with_stmt (entries_view self) (stmt_view s))) }
    {
        self.body.push(s)?;
        Ok(self)
    }
}

// Whether a label is a case of this value.
fn is_case(label: &Label, z: i128) -> bool
    ensures { result ≡ is_case z (label_view label.now) }
{
    match label.value {
        Some(n) => n.value == z,
        None => false,
    }
}

// Whether a label is a default.
fn is_default(label: &Label) -> bool
    ensures { result ≡ is_default (label_view label.now) }
{
    match label.value {
        Some(_) => false,
        None => true,
    }
}

// Whether one of these labels is a case of this value.
fn any_case(labels: &[Label], z: i128) -> bool
    ensures { result ≡ list_any (λ l. is_case z (label_view l)) labels.now }
{
    labels.iter().any(|label| is_case(label, z))
}

// Whether one of these labels is a default.
fn any_default(labels: &[Label]) -> bool
    ensures { result ≡ list_any (λ l. is_default (label_view l)) labels.now }
{
    labels.iter().any(|label| is_default(label))
}

// The value of a label: an integer constant expression, converted to the type of its switch.
fn label_value(place: u32, t: IntType, value: Option<Num>) -> Result<Num, Refusal>
    ensures { Says value_view result (typed_value t (label_value place t value)) }
{
    match value {
        Some(n) => Ok(Num::wrapping(t, n.value)),
        None => Err(Refusal {
            place,
            kind: Kind::TypeMismatch,
        }),
    }
}

/// The expression of a switch, at the word: a number, promoted.
pub(crate) fn switched_by(
    alloc: Global,
    place: u32,
    e: Box<Expr>,
) -> Result<Box<Expr>, CompileFault>
    ensures { Gives boxed_expr_view result (switched_by place (type_of (boxed_expr_view e)) (boxed_expr_view e)) }
{
    match e.ty {
        CType::Int(t) => converted(alloc, t, promote(t), e),
        _ => refused(place, Kind::TypeMismatch),
    }
}

/// The type of a switch's values, or int where its expression is at fault: its labels' values are
/// then nowhere seen.
pub(crate) fn type_of_switch(e: &Result<Box<Expr>, CompileFault>) -> IntType
    ensures { (j : Judged TypedExpr) → lacks_memory e.now ≡ false → Gives boxed_expr_view e.now j → result ≡ type_of_switch j }
{
    match e {
        Ok(e) => match e.ty {
            CType::Int(t) => t,
            _ => IntType::int(),
        },
        Err(_) => IntType::int(),
    }
}

/// A fault more, of which the one that comes first is named.
pub(crate) fn one_fault_more(
    fine: Result<(), CompileFault>,
    fault: CompileFault,
) -> Result<(), CompileFault>
    ensures { IsFaultMore fine fault result }
{
    let fault: Result<(), CompileFault> = Err(fault);
    both(fine, fault)?;
    Ok(())
}
