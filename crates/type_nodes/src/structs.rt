//! Tags, members and types, by what their parts came to (C11 6.7.2, 6.7.6).
ghost use Rattle.std.specs.Prelude.{◌≡◌, ℕ, List, [], length, map, IfOk, IfErr, OnOk};
ghost use Rattle.std.specs.List.{list_any};
ghost use Rattle.std.specs.Str.{bytes_eq};
ghost use Rattle.c_lex.specs.declared.refusal.CompileFault.TheVariants.{NoMemory};
ghost use Rattle.c_tree.specs.Syntax as trees;
ghost use Rattle.c_tree.specs.SyntaxViews as source;
ghost use Rattle.c_tree.specs.Typed.{Ty, structure};
ghost use Rattle.c_tree.specs.TypedViews.{type_view, boxed_expr_view};
ghost use Rattle.c_typing.specs.Faults as faults;
ghost use Rattle.c_typing.specs.Faults.{Judged, Gives};
ghost use Rattle.c_typing.specs.Types.{behind_pointers};
ghost use Rattle.c_typing.specs.Scope as scopes;
ghost use Rattle.c_typing.specs.Scope.{bytes_of, with_new_struct, with_tag, tag_number};
ghost use Rattle.c_typing.specs.Judgement.{Judging, lone, struct_fits, fitting, closing, is_again, fresh_member, object_declared, plain_type, is_no_enum, braces_fit, opened, tagged, specified, place_of_specs, dimension, whole};
ghost use Rattle.type_context.specs.ContextViews.{context_view, member_type_view, members_view, types_view};
ghost use Rattle.type_context.specs.inner.Outcomes.{joined};
ghost use Rattle.type_rules.specs.SpecifierViews.{numbers_view, part_view, parts_view, declared_view};
ghost use Rattle.type_context.specs.Telling.{Tells, Says};
ghost use Rattle.type_nodes.specs.Nodes.{Finishes, types_of_members};
ghost use Rattle.type_nodes.specs.inner.Members.{is_fine, stands_fine, struct_part};

use c_lex::{CompileFault, Kind, Refusal};
use c_tree::copies::copy_type;
use c_tree::syntax as tree;
use c_tree::syntax::{Name, Pointer};
use c_tree::typed::{CType, Expr};
use std::alloc::{AllocError, Global};
use type_context::context::{Context, MemberType, count, within};
use type_context::faults::{as_fault, both, unless};
use type_context::layouts::{GREATEST_OBJECT, struct_size};
use type_context::outcomes::both_fine;
use type_rules::declarators::{Declared, dimension, object_declared, plain_type};
use type_rules::places::place_of_specs;
use type_rules::specifiers::{Part, behind_pointers, specified};

// The members of a struct, of which there are so many at most.
const MOST_MEMBERS: usize = 256;

/// A tag is named; its number.
pub fn named_tag(context: &mut Context<'_>, tag: Name) -> Result<u32, CompileFault>
    ensures after { OnOk result (context_view context.new ≡ with_tag (context_view context.old) tag) }
    ensures number { IfOk result (λ n. n ≡ tag_number (with_tag (context_view context.old) tag) tag) }
    ensures memory { IfErr result (λ e. e ≡ NoMemory) }
{
    context.name_tag(tag)?;
    context.tag_number(tag)
}

/// The tag of a struct is no enum's (C11 6.7.2.3 p2).
pub fn is_no_enum(context: &Context<'_>, tag: Name) -> Result<(), Refusal>
    ensures { Says (λ _. tt) result (is_no_enum (context_view context.now) tag) }
{
    unless(tag.from, Kind::DoubleName, !context.is_enum_tag(tag))
}

/// There are 256 structs with braces at most.
pub fn braces_fit(context: &Context<'_>, place: u32) -> Result<(), Refusal>
    ensures { Says (λ _. tt) result (braces_fit (context_view context.now) place) }
{
    within(place, 3, 256, context.begun.len())
}

/// A tag's braces: once.
pub fn opened(context: &Context<'_>, tag: Name, number: u32) -> Result<(), Refusal>
    ensures { number ≡ tag_number (context_view context.now) tag → Says (λ _. tt) result (opened (context_view context.now) tag) }
{
    let once = unless(tag.from, Kind::DoubleName, !context.is_begun(number));
    let others = both_fine(is_no_enum(context, tag), braces_fit(context, tag.from));
    both_fine(once, others)
}

// A struct of this number, if nothing is wrong with its tag.
#[tactic(auto, using(type_context::proofs::Judging::refused_part))]
fn struct_if(fine: Result<(), Refusal>, number: u32) -> Result<Part, Refusal>
    ensures { (j : Judged (Unit {0})) → Says (λ _. tt) fine j → Says part_view result (struct_part j number) }
{
    fine?;
    Ok(Part::Whole(CType::Struct(number)))
}

/// A struct by its tag; one that wasn't named before isn't declared.
pub fn tagged(context: &mut Context<'_>, tag: Name) -> Result<Part, CompileFault>
    ensures { Tells part_view result context.new (tagged tag (context_view context.old)) }
{
    let fine = is_no_enum(context, tag);
    let number = named_tag(context, tag)?;
    as_fault(struct_if(fine, number))
}

/// A struct without a tag; its number.
pub fn unnamed_struct(context: &mut Context<'_>) -> Result<u32, CompileFault>
    ensures after { OnOk result (context_view context.new ≡ with_new_struct (context_view context.old) []) }
    ensures number { IfOk result (λ n. n ≡ length (context_view context.old).structs) }
    ensures memory { IfErr result (λ e. e ≡ NoMemory) }
{
    let number = count(context.structs.len())?;
    context.add_struct(&[])?;
    Ok(number)
}

// Whether a name is one of these.
fn is_among(context: &Context<'_>, names: &[Name], name: Name) -> bool
    ensures { result ≡ list_any (λ m. bytes_eq (bytes_of (context_view context.now).text name) (bytes_of (context_view context.now).text m)) names.now }
{
    let bytes = context.bytes(name);
    names.iter().any(|other| bytes == context.bytes(*other))
}

// Whether a member before has this name; behind one too many none is compared.
fn is_again(context: &Context<'_>, before: &[Name], name: Name) -> bool
    ensures { result ≡ is_again (context_view context.now) before.now name }
{
    before.len() <= MOST_MEMBERS && is_among(context, before, name)
}

/// A member's name is declared once in its struct, and there are 256 at most.
pub fn fresh_member(context: &Context<'_>, before: &[Name], name: Name) -> Result<(), Refusal>
    ensures { Says (λ _. tt) result (fresh_member (context_view context.now) before.now name) }
{
    let again = is_again(context, before, name);
    let once = unless(name.from, Kind::DoubleName, !again);
    both_fine(once, within(name.from, 4, MOST_MEMBERS, before.len()))
}

// The types of members.
fn types_of(alloc: Global, all: &[MemberType<'_>]) -> Result<Vec<CType>, AllocError>
    ensures { IfOk result (λ types. types_view types.items ≡ map (λ (m : List ℕ × Ty). m.1) (members_view all.now)) }
{
    let mut types = Vec::new(alloc);
    'members: for member in all {
        types.push(copy_type(alloc, &member.ty)?)?;
    }
    Ok(types)
}

// Whether a struct with these members is at most as large as the greatest object.
fn fits(context: &Context<'_>, place: u32, all: &[MemberType<'_>]) -> Result<(), CompileFault>
    ensures { Gives (λ _. tt) result (is_fine (struct_fits (context_view context.now) place (members_view all.now))) }
{
    let types = types_of(context.alloc, all)?;
    let size = struct_size(&context.structs, &types)?;
    as_fault(unless(place, Kind::BadSize, size <= GREATEST_OBJECT))
}

// A struct is declared with these members, if they fit, unless it was begun before.
fn declared_with<'t>(
    context: &mut Context<'t>,
    place: u32,
    number: u32,
    again: bool,
    all: Vec<MemberType<'t>>,
) -> Result<(), CompileFault>
    ensures { Tells (λ _. tt) result context.new (stands_fine (fitting place number again (lone (faults.typed (members_view all.entry.items)))) (context_view context.old)) }
{
    fits(context, place, &all)?;
    if again {
        return Ok(());
    }
    context.declare_struct(number, all)
}

// The same, of members that are judged.
fn fitting<'t>(
    context: &mut Context<'t>,
    place: u32,
    number: u32,
    again: bool,
    members: Result<Vec<MemberType<'t>>, CompileFault>,
) -> Result<(), CompileFault>
    ensures { (J : Judging (List (List ℕ × Ty))) (c : scopes.Context) → Tells types_of_members members.entry context.old (J c) → Tells (λ _. tt) result context.new (stands_fine (fitting place number again J) c) }
{
    let all = members?;
    declared_with(context, place, number, again, all)
}

// A struct by its number, if nothing is wrong with its braces.
fn tag_of(
    number: u32,
    opened: Result<(), CompileFault>,
    fits: Result<(), CompileFault>,
) -> Result<Part, CompileFault>
    ensures { Finishes part_view (joined opened fits) (λ _. faults.typed (whole (structure number))) result }
{
    both(opened, fits)?;
    Ok(Part::Whole(CType::Struct(number)))
}

/// Behind the closing brace the struct is declared, unless it was begun before.
pub fn closed<'t>(
    context: &mut Context<'t>,
    place: u32,
    number: u32,
    opened: Result<(), CompileFault>,
    again: bool,
    members: Result<Vec<MemberType<'t>>, CompileFault>,
) -> Result<Part, CompileFault>
    ensures { (j : Judged (Unit {0})) (J : Judging (List (List ℕ × Ty))) (c : scopes.Context) → Gives (λ _. tt) opened j → Tells types_of_members members.entry context.old (J c) → Tells part_view result context.new (closing place number j again J c) }
{
    let fits = fitting(context, place, number, again, members);
    tag_of(number, opened, fits)
}

/// The type of the object that a member's declarator declares, by its specifiers and sizes.
pub fn member_object(
    context: &Context<'_>,
    base: Result<CType, CompileFault>,
    d: &tree::Declarator,
    sizes: Result<Vec<u32>, CompileFault>,
) -> Result<CType, CompileFault>
    ensures { Finishes type_view (joined base sizes) (λ p. object_declared (context_view context.now) (type_view p.0) (record { name = d.now.name; pointers = d.now.pointers.items; sizes = numbers_view p.1 })) result }
{
    let (base, sizes) = both(base, sizes)?;
    let declared = Declared {
        name: d.name,
        pointers: &d.pointers,
        sizes,
    };
    object_declared(context, base, &declared)
}

/// A member, by what its name and its type came to.
pub fn member_type<'t>(
    context: &Context<'t>,
    name: Name,
    fresh: Result<(), CompileFault>,
    ty: Result<CType, CompileFault>,
) -> Result<MemberType<'t>, CompileFault>
    ensures { Finishes member_type_view (joined fresh ty) (λ p. faults.typed (bytes_of (context_view context.now).text name, type_view p.1)) result }
{
    let (_, ty) = both(fresh, ty)?;
    let name = context.bytes(name);
    Ok(MemberType { name, ty })
}

/// The members that are declared together, where their specifiers are typed too.
pub fn member_types<'t>(
    base: Result<CType, CompileFault>,
    all: Result<Vec<MemberType<'t>>, CompileFault>,
) -> Result<Vec<MemberType<'t>>, CompileFault>
    ensures { Finishes types_of_members (joined base all.entry) (λ p. faults.typed (types_of_members p.1)) result }
{
    let (_, all) = both(base, all)?;
    Ok(all)
}

/// A declarator, by its name and its sizes.
pub fn declared<'a>(
    d: &'a tree::Declarator,
    sizes: Result<Vec<u32>, CompileFault>,
) -> Result<Declared<'a>, CompileFault>
    ensures { Finishes declared_view sizes (λ s. faults.typed (record { name = d.now.name; pointers = d.now.pointers.items; sizes = numbers_view s })) result }
{
    let sizes = sizes?;
    Ok(Declared {
        name: d.name,
        pointers: &d.pointers,
        sizes,
    })
}

// ---- types, by what their parts came to

/// The type that specifiers name (C11 6.7.2 p2).
pub fn type_of_parts(
    alloc: Global,
    specs: &[tree::Spec],
    parts: Result<Vec<Part>, CompileFault>,
) -> Result<CType, CompileFault>
    ensures { Finishes type_view parts (λ ps. specified (place_of_specs (trees.specs_of (map source.spec_view specs.now))) (parts_view ps)) result }
{
    let parts = parts?;
    specified(alloc, place_of_specs(specs), &parts)
}

/// The type of a type name: a type behind pointers, made of 64 stars and brackets at most (C11
/// 6.7.6.1).
#[tactic(auto, using(type_context::proofs::Judging::fails_part))]
pub fn pointers_to(
    alloc: Global,
    place: u32,
    named: Result<CType, CompileFault>,
    pointers: &[Pointer],
) -> Result<CType, CompileFault>
    ensures { Finishes type_view named (λ t. plain_type place (behind_pointers (type_view t) pointers.now)) result }
{
    let named = named?;
    let whole = behind_pointers(alloc, named, pointers)?;
    as_fault(plain_type(place, whole))
}

/// The size of an array, by what stands between the brackets and its typed form (C11 6.7.6.2).
pub fn size_of_dimension(
    context: &Context<'_>,
    e: &tree::Expr,
    typed: Result<Box<Expr>, CompileFault>,
) -> Result<u32, CompileFault>
    ensures { Finishes (λ n. n) typed (λ x. dimension (source.expr_view e.now) (context_view context.now) (boxed_expr_view x)) result }
{
    let typed = typed?;
    as_fault(dimension(context, e, &typed))
}
