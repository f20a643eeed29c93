//! What stands between the braces of an enum (C11 6.7.2.2).
ghost use Rattle.std.specs.Prelude.{map, ℤ, pos};
ghost use Rattle.ak_words.specs.IntType.{int};
ghost use Rattle.c_tree.specs.Syntax as trees;
ghost use Rattle.c_tree.specs.SyntaxViews as source;
ghost use Rattle.c_tree.specs.Typed.{integer};
ghost use Rattle.c_typing.specs.Faults.{typed};
ghost use Rattle.c_typing.specs.Judgement.{judged, valued, ruled, whole, whole_value, enumerator_value, judged_enumerator, judged_enumerators, enum_braced};
ghost use Rattle.c_typing.specs.Constants.{constant_value};
ghost use Rattle.type_context.specs.ContextViews.{context_view};
ghost use Rattle.type_context.specs.Telling.{Tells};
ghost use Rattle.type_rules.specs.SpecifierViews.{part_view};
ghost use Rattle.c_types.specs.inner.Enumerators.{value_or};

use crate::expressions::value;
use crate::outcomes::fine_with;
use c_lex::CompileFault;
use c_tree::syntax as tree;
use c_tree::syntax::Name;
use type_context::context::Context;
use type_context::faults::as_fault;
use type_nodes::enums::{
    enum_closed, enum_opened, enumerated, enumerator_value, given_value, unnamed_enum, value_behind,
};
use type_rules::specifiers::Part;

/// The braces of an enum behind its tag.
#[cycle(nodes)]
pub(crate) fn enum_braces(
    context: &mut Context<'_>,
    tag: Name,
    list: &[tree::Enumerator],
) -> Result<Part, CompileFault>
    ensures { Tells part_view result context.new (enum_braced tag (judged_enumerators (pos 0) (trees.enumerators_of (map source.enumerator_view list.now))) (context_view context.old)) }
{
    let opened = as_fault(enum_opened(context, tag));
    context.begin_enum(tag)?;
    let list = enumerators(context, list);
    enum_closed(context, tag, opened, list)
}

/// The braces of an enum without a tag.
#[cycle(nodes)]
pub(crate) fn unnamed_list(
    context: &mut Context<'_>,
    list: &[tree::Enumerator],
) -> Result<Part, CompileFault>
    ensures { Tells part_view result context.new (ruled (judged_enumerators (pos 0) (trees.enumerators_of (map source.enumerator_view list.now))) (λ d u. typed (whole (integer int))) (context_view context.old)) }
{
    let list = enumerators(context, list);
    unnamed_enum(list)
}

// Enumerators, of which the first is 0 and each other one more than the one before, unless its
// value is given.
#[cycle(nodes)]
fn enumerators(context: &mut Context<'_>, list: &[tree::Enumerator]) -> Result<(), CompileFault>
    ensures { Tells (λ _. tt) result context.new (judged_enumerators (pos 0) (trees.enumerators_of (map source.enumerator_view list.now)) (context_view context.old)) }
{
    let mut next = 0;
    let mut all = Ok(());
    'list: for e in list {
        let value = enumerator(context, next, e);
        next = value_behind(&value)?;
        all = fine_with(all, value);
    }
    all
}

// An enumerator, of this value if none is given.
#[cycle(nodes)]
fn enumerator(
    context: &mut Context<'_>,
    next: i128,
    e: &tree::Enumerator,
) -> Result<i32, CompileFault>
    ensures { Tells (λ z. z) result context.new (judged_enumerator next (source.enumerator_view e.now) (context_view context.old)) }
{
    let value = value_or(context, next, e);
    enumerated(context, e.name, value)
}

// The value of an enumerator: the one that is given, or else this.
#[cycle(nodes)]
fn value_or(
    context: &mut Context<'_>,
    next: i128,
    e: &tree::Enumerator,
) -> Result<i32, CompileFault>
    ensures { Tells (λ z. z) result context.new (value_or next (source.enumerator_view e.now) (context_view context.old)) }
{
    match &e.value {
        Some(value) => given(context, e.name.from, value),
        None => as_fault(enumerator_value(e.name.from, Some(next))),
    }
}

// A value that is given.
#[cycle(nodes)]
fn given(context: &mut Context<'_>, place: u32, e: &tree::Expr) -> Result<i32, CompileFault>
    ensures { Tells (λ z. z) result context.new (ruled (valued (judged (source.expr_view e.now))) (λ d x. enumerator_value place (whole_value (constant_value d (source.expr_view e.now) x))) (context_view context.old)) }
{
    let typed = value(context, e);
    given_value(context, place, e, typed)
}
