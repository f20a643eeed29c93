//! Enums, their enumerators, and the names of types (C11 6.7.2.2, 6.7.8).
ghost use Rattle.std.specs.Prelude.{◌≡◌, ℤ, pos, ◌+ℤ◌, IfOk, IfErr};
ghost use Rattle.ak_words.specs.IntType.{int};
ghost use Rattle.c_lex.specs.declared.refusal.CompileFault.TheVariants.{NoMemory};
ghost use Rattle.c_tree.specs.SyntaxViews as source;
ghost use Rattle.c_tree.specs.Typed.{integer};
ghost use Rattle.c_tree.specs.TypedViews.{boxed_expr_view};
ghost use Rattle.c_typing.specs.Faults.{Judged, Gives, typed, both};
ghost use Rattle.c_typing.specs.Scope as scopes;
ghost use Rattle.c_typing.specs.Scope.{meaning_of, with_listed};
ghost use Rattle.c_typing.specs.Constants.{constant_value};
ghost use Rattle.c_typing.specs.Judgement.{Judging, whole, enum_tagged, enum_opened, enumerator_value, whole_value, enumerator_fine, or_zero, enumerated, aliased};
ghost use Rattle.type_context.specs.ContextViews.{context_view};
ghost use Rattle.type_context.specs.inner.Outcomes.{joined};
ghost use Rattle.type_context.specs.Telling.{Says, Tells};
ghost use Rattle.type_rules.specs.SpecifierViews.{part_view};
ghost use Rattle.type_nodes.specs.Nodes.{Finishes};
ghost use Rattle.type_nodes.specs.inner.Members.{enum_part};

use ak_words::{IntType, Num};
use c_lex::{CompileFault, Kind, Refusal};
use c_tree::syntax as tree;
use c_tree::syntax::Name;
use c_tree::typed::{CType, Expr};
use type_context::context::{Context, within};
use type_context::faults::{as_fault, both, both_or_refusal, refused, unless};
use type_context::names::{Binding, Library};
use type_rules::constants::constant_value;
use type_rules::specifiers::Part;

/// The enumerators that there may be.
const MOST_ENUMERATORS: usize = 4096;

// An enum is an int (this project's profile).
fn int_part() -> Part
    ensures { part_view result ≡ whole (integer int) }
{
    Part::Whole(CType::Int(IntType::int()))
}

/// An enum by its tag, which is declared and no struct's (C11 6.7.2.3 p2, p3).
#[tactic(auto, using(type_context::proofs::Judging::refused_part))]
pub fn enum_tagged(context: &Context<'_>, tag: Name) -> Result<Part, Refusal>
    ensures { Says part_view result (enum_tagged (context_view context.now) tag) }
{
    if context.is_struct_tag(tag) {
        return Err(Refusal {
            place: tag.from,
            kind: Kind::DoubleName,
        });
    }
    unless(tag.from, Kind::UnknownName, context.is_listed(tag))?;
    Ok(int_part())
}

/// The braces of an enum's tag, which has none yet and is no struct's (C11 6.7.2.3 p1).
pub fn enum_opened(context: &Context<'_>, tag: Name) -> Result<(), Refusal>
    ensures { Says (λ _. tt) result (enum_opened (context_view context.now) tag) }
{
    let taken = context.is_enum_tag(tag) || context.is_struct_tag(tag);
    unless(tag.from, Kind::DoubleName, !taken)
}

// An enum, if nothing is wrong with its braces.
fn enum_of(
    opened: Result<(), CompileFault>,
    list: Result<(), CompileFault>,
) -> Result<Part, CompileFault>
    ensures { Finishes part_view (joined opened list) (λ _. typed (whole (integer int))) result }
{
    both(opened, list)?;
    Ok(int_part())
}

/// Behind the closing brace an enum is declared.
pub fn enum_closed(
    context: &mut Context<'_>,
    tag: Name,
    opened: Result<(), CompileFault>,
    list: Result<(), CompileFault>,
) -> Result<Part, CompileFault>
    ensures { (j : Judged (Unit {0})) (p : Judged (Unit {0}) × scopes.Context) → Gives (λ _. tt) opened j → Tells (λ _. tt) list context.old p → Tells part_view result context.new (enum_part (both j p.0), with_listed p.1 tag) }
{
    context.end_enum(tag)?;
    enum_of(opened, list)
}

/// An enum without a tag, by its enumerators.
pub fn unnamed_enum(list: Result<(), CompileFault>) -> Result<Part, CompileFault>
    ensures { Finishes part_view list (λ _. typed (whole (integer int))) result }
{
    list?;
    Ok(int_part())
}

// ---- enumerators

/// The value of an enumerator is an int (C11 6.7.2.2 p2).
pub fn enumerator_value(place: u32, value: Option<i128>) -> Result<i32, Refusal>
    ensures { Says (λ z. z) result (enumerator_value place value) }
{
    let kind = Kind::TypeMismatch;
    match value {
        Some(z) => {
            if IntType::int().holds(z) {
                Ok(z as i32)
            } else {
                Err(Refusal { place, kind })
            }
        }
        None => Err(Refusal { place, kind }),
    }
}

// The value of an integer constant expression, as a whole number.
fn whole_value(value: Option<Num>) -> Option<i128>
    ensures { result ≡ whole_value value }
{
    match value {
        Some(n) => Some(n.value),
        None => None,
    }
}

/// The value of an enumerator, by the expression that gives it and its typed form.
pub fn given_value(
    context: &Context<'_>,
    place: u32,
    e: &tree::Expr,
    typed: Result<Box<Expr>, CompileFault>,
) -> Result<i32, CompileFault>
    ensures { Finishes (λ z. z) typed (λ x. enumerator_value place (whole_value (constant_value (context_view context.now) (source.expr_view e.now) (boxed_expr_view x)))) result }
{
    let typed = typed?;
    let value = whole_value(constant_value(context, e, &typed));
    as_fault(enumerator_value(place, value))
}

// What is judged at an enumerator's name, whatever its value is.
fn enumerator_fine(context: &Context<'_>, name: Name) -> Result<((), ()), Refusal>
    ensures { Says (λ x. x) result (enumerator_fine (context_view context.now) name) }
{
    let few = within(
        name.from,
        12,
        MOST_ENUMERATORS,
        context.enumerators as usize,
    );
    both_or_refusal(context.fresh(name), few)
}

/// An enumerator's value, or 0 where it is at fault: what follows from it is then nowhere seen.
pub fn or_zero(value: &Result<i32, CompileFault>) -> Result<i32, CompileFault>
    ensures value { (j : Judged ℤ) → Gives (λ z. z) value.now j → IfOk result (λ z. z ≡ or_zero j) }
    ensures memory { IfErr result (λ e. e ≡ NoMemory) }
{
    match value {
        Ok(z) => Ok(*z),
        Err(CompileFault::Refused(_)) => Ok(0),
        Err(CompileFault::NoMemory) => Err(CompileFault::NoMemory),
    }
}

/// The value of the enumerator behind one of this value, if none is given (C11 6.7.2.2 p3).
pub fn value_behind(value: &Result<i32, CompileFault>) -> Result<i128, CompileFault>
    ensures value { (j : Judged ℤ) → Gives (λ z. z) value.now j → IfOk result (λ z. z ≡ or_zero j +ℤ pos 1) }
    ensures memory { IfErr result (λ e. e ≡ NoMemory) }
{
    let z = or_zero(value)?;
    Ok(i128::from(z) + 1)
}

// An enumerator's value, if nothing is wrong with its name.
fn value_if(
    fine: Result<((), ()), CompileFault>,
    value: Result<i32, CompileFault>,
) -> Result<i32, CompileFault>
    ensures { Finishes (λ z. z) (joined fine value) (λ p. typed p.1) result }
{
    let (_, z) = both(fine, value)?;
    Ok(z)
}

/// An enumerator, by its value: its name is in scope directly behind that (C11 6.2.1 p7).
pub fn enumerated(
    context: &mut Context<'_>,
    name: Name,
    value: Result<i32, CompileFault>,
) -> Result<i32, CompileFault>
    ensures { (J : Judging ℤ) (c : scopes.Context) → Tells (λ z. z) value context.old (J c) → Tells (λ z. z) result context.new (enumerated name J c) }
{
    let fine = as_fault(enumerator_fine(context, name));
    let z = or_zero(&value)?;
    context.declare_enumerator(name, z)?;
    value_if(fine, value)
}

// ---- names of types

/// What the name of a type stands for, which may be one of the library's (C11 7.17.6).
pub fn aliased(context: &Context<'_>, name: Name) -> Result<Part, CompileFault>
    ensures { Gives part_view result (aliased name.from (meaning_of (context_view context.now) name)) }
{
    match context.meaning_of(name)? {
        Some(Binding::Type(t)) => Ok(Part::Whole(t)),
        Some(Binding::Library(Library::AtomicType(t))) => Ok(Part::Whole(CType::Atomic(
            t.number(),
        ))),
        _ => refused(name.from, Kind::UnknownName),
    }
}
