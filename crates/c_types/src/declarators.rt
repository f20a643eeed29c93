//! Types as they are named and declared: specifiers, structs, members and declarators (C11 6.7.2, 6.7.6, 6.7.7).
ghost use Rattle.std.specs.Prelude.{◌≡◌, ◌++◌, [], false, map};
ghost use Rattle.c_tree.specs.Syntax as trees;
ghost use Rattle.c_tree.specs.SyntaxViews as source;
ghost use Rattle.c_tree.specs.Typed.{Ty};
ghost use Rattle.c_tree.specs.TypedViews.{type_view};
ghost use Rattle.c_typing.specs.Faults.{Judged, Gives};
ghost use Rattle.c_typing.specs.Judgement as rules;
ghost use Rattle.c_typing.specs.Judgement.{judged, judged_type, judged_specs, judged_parts, judged_spec, judged_members, judged_member, judged_declarators, judged_dims, braced, braced_alone, names_in};
ghost use Rattle.c_typing.specs.Statements.{judged_declarator};
ghost use Rattle.type_context.specs.ContextViews.{context_view};
ghost use Rattle.type_rules.specs.SpecifierViews.{numbers_view, part_view, parts_view, declared_view};
ghost use Rattle.type_context.specs.Telling.{Tells, lacks_memory};
ghost use Rattle.type_nodes.specs.Nodes.{types_of_members};

use crate::enums::{enum_braces, unnamed_list};
use crate::expressions::value;
use c_lex::CompileFault;
use c_tree::syntax as tree;
use c_tree::syntax::Name;
use c_tree::typed::CType;
use type_context::context::{Context, MemberType};
use type_context::faults::as_fault;
use type_context::outcomes::{again, appended, pushed};
use type_nodes::enums::{aliased, enum_tagged};
use type_nodes::structs::{
    braces_fit, closed, declared, fresh_member, member_object, member_type, member_types,
    named_tag, opened, pointers_to, size_of_dimension, tagged, type_of_parts, unnamed_struct,
};
use type_rules::declarators::Declared;
use type_rules::places::place_of_specs;
use type_rules::specifiers::Part;

/// The name of a type (C11 6.7.7).
#[cycle(nodes)]
pub fn type_name(context: &mut Context<'_>, t: &tree::TypeName) -> Result<CType, CompileFault>
    ensures { Tells type_view result context.new (judged_type (source.type_name_view t.now) (context_view context.old)) }
{
    let named = specifiers(context, &t.specs);
    pointers_to(context.alloc, place_of_specs(&t.specs), named, &t.pointers)
}

/// The type that specifiers name, at the place of the first (C11 6.7.2).
#[cycle(nodes)]
pub fn specifiers(context: &mut Context<'_>, specs: &[tree::Spec]) -> Result<CType, CompileFault>
    ensures { Tells type_view result context.new (judged_specs (trees.specs_of (map source.spec_view specs.now)) (context_view context.old)) }
{
    let parts = parts(context, specs);
    type_of_parts(context.alloc, specs, parts)
}

// Specifiers, from left to right.
#[cycle(nodes)]
fn parts(context: &mut Context<'_>, specs: &[tree::Spec]) -> Result<Vec<Part>, CompileFault>
    ensures { Tells parts_view result context.new (judged_parts (trees.specs_of (map source.spec_view specs.now)) (context_view context.old)) }
{
    let mut all = Ok(Vec::new(context.alloc));
    'specifiers: for spec in specs {
        let next = part(context, spec);
        all = pushed(all, next);
    }
    all
}

// A specifier.
#[cycle(nodes)]
fn part(context: &mut Context<'_>, spec: &tree::Spec) -> Result<Part, CompileFault>
    ensures { Tells part_view result context.new (judged_spec (source.spec_view spec.now) (context_view context.old)) }
{
    match spec {
        tree::Spec::Word { word, .. } => Ok(Part::Word(*word)),
        tree::Spec::Struct { tag, .. } => tagged(context, *tag),
        tree::Spec::StructBody { tag, members, .. } => braces(context, *tag, members),
        tree::Spec::UnnamedStruct { place, members } => unnamed_braces(context, *place, members),
        tree::Spec::Enum { tag, .. } => as_fault(enum_tagged(context, *tag)),
        tree::Spec::EnumBody { tag, list, .. } => enum_braces(context, *tag, list),
        tree::Spec::UnnamedEnum { list, .. } => unnamed_list(context, list),
        tree::Spec::Alias(name) => aliased(context, *name),
    }
}

// The braces of a struct (C11 6.7.2.1).
#[cycle(nodes)]
fn braces(context: &mut Context<'_>, tag: Name, all: &[tree::Member]) -> Result<Part, CompileFault>
    ensures { Tells part_view result context.new (braced tag (judged_members [] (trees.members_row (map source.member_view all.now))) (context_view context.old)) }
{
    let number = named_tag(context, tag)?;
    let opened = as_fault(opened(context, tag, number));
    let again = context.is_begun(number);
    context.begin(number)?;
    let members = members(context, all);
    closed(context, tag.from, number, opened, again, members)
}

// The braces of a struct without a tag, at its word.
#[cycle(nodes)]
fn unnamed_braces(
    context: &mut Context<'_>,
    place: u32,
    all: &[tree::Member],
) -> Result<Part, CompileFault>
    ensures { Tells part_view result context.new (braced_alone place (judged_members [] (trees.members_row (map source.member_view all.now))) (context_view context.old)) }
{
    let number = unnamed_struct(context)?;
    let fit = as_fault(braces_fit(context, place));
    context.begin(number)?;
    let members = members(context, all);
    closed(context, place, number, fit, false, members)
}

// The members of a struct.
#[cycle(nodes)]
fn members<'t>(
    context: &mut Context<'t>,
    members: &[tree::Member],
) -> Result<Vec<MemberType<'t>>, CompileFault>
    ensures { Tells types_of_members result context.new (judged_members [] (trees.members_row (map source.member_view members.now)) (context_view context.old)) }
{
    let mut before = Vec::new(context.alloc);
    let mut all = Ok(Vec::new(context.alloc));
    'members: for m in members {
        let next = member(context, &mut before, m);
        all = appended(all, next);
    }
    all
}

// Members that are declared together, behind those of these names.
#[cycle(nodes)]
fn member<'t>(
    context: &mut Context<'t>,
    before: &mut Vec<Name>,
    m: &tree::Member,
) -> Result<Vec<MemberType<'t>>, CompileFault>
    ensures judged { Tells types_of_members result context.new (judged_member before.old.items (source.member_view m.now) (context_view context.old)) }
    ensures names { lacks_memory result ≡ false → before.new.items ≡ before.old.items ++ rules.names_of_member (source.member_view m.now) }
{
    let base = specifiers(context, &m.specs);
    let all = declarators(context, before, &base, &m.declarators);
    member_types(base, all)
}

// The members that declarators declare, behind those of these names.
#[cycle(nodes)]
fn declarators<'t>(
    context: &mut Context<'t>,
    before: &mut Vec<Name>,
    base: &Result<CType, CompileFault>,
    declarators: &[tree::Declarator],
) -> Result<Vec<MemberType<'t>>, CompileFault>
    ensures judged { (j : Judged Ty) → Gives type_view base.now j → Tells types_of_members result context.new (judged_declarators before.old.items j (trees.declarators_of (map source.declarator_view declarators.now)) (context_view context.old)) }
    ensures names { lacks_memory result ≡ false → before.new.items ≡ before.old.items ++ names_in (trees.declarators_of (map source.declarator_view declarators.now)) }
{
    let mut all = Ok(Vec::new(context.alloc));
    'declarators: for d in declarators {
        let fresh = as_fault(fresh_member(context, before, d.name));
        let sizes = dimensions(context, &d.dims);
        let base = again(context.alloc, base);
        let ty = member_object(context, base, d, sizes);
        all = pushed(all, member_type(context, d.name, fresh, ty));
        before.push(d.name)?;
    }
    all
}

/// The sizes of an array (C11 6.7.6.2).
#[cycle(nodes)]
pub fn dimensions(context: &mut Context<'_>, dims: &[tree::Expr]) -> Result<Vec<u32>, CompileFault>
    ensures { Tells numbers_view result context.new (judged_dims (trees.exprs_of (map source.expr_view dims.now)) (context_view context.old)) }
{
    let mut all = Ok(Vec::new(context.alloc));
    'dimensions: for e in dims {
        let next = array_size(context, e);
        all = pushed(all, next);
    }
    all
}

/// The size of an array: an integer constant expression.
#[cycle(nodes)]
pub fn array_size(context: &mut Context<'_>, e: &tree::Expr) -> Result<u32, CompileFault>
    ensures { Tells (λ n. n) result context.new (rules.array_size (source.expr_view e.now) (judged (source.expr_view e.now)) (context_view context.old)) }
{
    let typed = value(context, e);
    size_of_dimension(context, e, typed)
}

/// A declarator (C11 6.7.6).
pub fn declarator<'a>(
    context: &mut Context<'_>,
    d: &'a tree::Declarator,
) -> Result<Declared<'a>, CompileFault>
    ensures { Tells declared_view result context.new (judged_declarator (source.declarator_view d.now) (context_view context.old)) }
{
    let sizes = dimensions(context, &d.dims);
    declared(d, sizes)
}
