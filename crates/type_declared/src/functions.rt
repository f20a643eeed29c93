//! The names and types of functions (C11 6.7 p3, 6.7.6.3, 6.9.1).
ghost use Rattle.std.specs.Prelude.{◌≡◌, ◌∷◌, ◌++◌, [], ℕ, ◌&&◌, List, map, OnOk, IfOk, IfErr};
ghost use Rattle.std.specs.List.{list_any};
ghost use Rattle.std.specs.Map.{lookup};
ghost use Rattle.std.specs.Option.{option_map};
ghost use Rattle.std.specs.Str.{bytes_eq};
ghost use Rattle.c_lex.specs.declared.refusal.CompileFault.TheVariants.{NoMemory};
ghost use Rattle.c_tree.specs.SyntaxViews as source;
ghost use Rattle.c_tree.specs.TypedViews.{type_view};
ghost use Rattle.c_typing.specs.Faults.{Gives};
ghost use Rattle.c_typing.specs.Programs.{place_of_name, defined_name, defined_by, defined_names, once, agrees, is_new, first_time, one_body, before_name, not_library, name_fine, result_type, with_name, with_function, with_body, is_main, has_main, param_type};
ghost use Rattle.type_context.specs.ContextViews.{context_view, types_view, seen};
ghost use Rattle.type_context.specs.Telling.{Says};
ghost use Rattle.type_declared.specs.FunctionNames.{IsDefined, named_if};
ghost use Rattle.type_declared.specs.ResultTypes.{result_fine};

use ak_words::IntType;
use c_lex::{CompileFault, Kind, Refusal};
use c_tree::syntax::{Block, External, Name, Rest};
use c_tree::typed::CType;
use indexmap::IndexMap;
use type_context::context::{Context, count, within};
use type_context::faults::{as_fault, unless};
use type_context::kinds::{
    has_size, is_array, is_struct_or_mutex, same_int, same_type, same_types,
};
use type_context::names::{Binding, library_name};
use type_context::outcomes::both_fine;
use type_rules::declarators::plain_type;

/// The functions that have a body anywhere in the file: the place of each one's name among theirs.
#[derive(Drop)]
pub struct Defined<'t> {
    pub places: IndexMap<&'t [u8], u32>,
    pub count: u32,
}

impl<'t> Defined<'t> {
    // Whether a function of the name has a body.
    fn has(&self, bytes: &[u8]) -> bool
        ensures { (names : List (List ℕ)) → IsDefined names self.now → result ≡ list_any (bytes_eq bytes.now) names }
    {
        self.places.get(bytes).is_some()
    }

    // The number of the function of the name.
    fn place(&self, bytes: &[u8]) -> u32
        ensures { (names : List (List ℕ)) → IsDefined names self.now → result ≡ place_of_name bytes.now names }
    {
        match self.places.get(bytes) {
            Some(n) => *n,
            None => self.count,
        }
    }

    // One more function.
    fn define(&mut self, bytes: &'t [u8]) -> Result<(), CompileFault>
        ensures after { OnOk result ((names : List (List ℕ)) → IsDefined names self.old → IsDefined (names ++ bytes.now ∷ []) self.new) }
        ensures memory { IfErr result (λ e. e ≡ NoMemory) }
    {
        if self.places.get(bytes).is_none() {
            self.places.insert(bytes, self.count)?;
        }
        self.count = self.count.checked_add(1).ok_or(CompileFault::NoMemory)?;
        Ok(())
    }
}

// ---- what a name meant before

// The name of a function was one of a function before, or of nothing.
fn once(place: u32, before: Option<&Binding>) -> Result<(), Refusal>
    ensures { Says (λ _. tt) result (once place (seen before.entry)) }
{
    match before {
        Some(Binding::Function { .. }) | None => Ok(()),
        Some(_) => Err(Refusal {
            place,
            kind: Kind::DoubleName,
        }),
    }
}

// A function is declared again with the type that it had.
fn agrees(
    place: u32,
    params: &[CType],
    returned: &CType,
    before: Option<&Binding>,
) -> Result<(), Refusal>
    ensures { Says (λ _. tt) result (agrees place (types_view params.now) (type_view returned.now) (seen before.entry)) }
{
    match before {
        Some(
            Binding::Function {
                params: types,
                result: other,
                ..
            },
        ) => {
            let same = same_types(params, types) && same_type(returned, other);
            unless(place, Kind::TypeMismatch, same)
        }
        _ => Ok(()),
    }
}

// Whether no function had the name.
fn is_new(before: Option<&Binding>) -> bool
    ensures { result ≡ is_new (seen before.entry) }
{
    !matches!(before, Some(Binding::Function { .. }))
}

/// What a name meant before at file scope.
pub fn before_name<'a>(context: &'a Context<'_>, name: Name) -> Option<&'a Binding>
    ensures { seen result ≡ before_name (context_view context.now) name }
{
    context.inner.get(context.bytes(name))
}

// ---- what is judged at a function's name

// A function that is new has a body anywhere, and there are 8,192 names at most.
fn first_time(
    context: &Context<'_>,
    defined: &Defined<'_>,
    name: Name,
    new: bool,
) -> Result<(), Refusal>
    ensures { (names : List (List ℕ)) → IsDefined names defined.now → Says (λ _. tt) result (first_time (context_view context.now) names name new) }
{
    if !new {
        return Ok(());
    }
    let known = unless(
        name.from,
        Kind::UnknownName,
        defined.has(context.bytes(name)),
    );
    both_fine(known, within(name.from, 1, 8192, context.functions.len()))
}

// Whether a function of the name had a body before.
fn has_body(context: &Context<'_>, bytes: &[u8]) -> bool
    ensures { result ≡ list_any (bytes_eq bytes.now) (context_view context.now).bodies }
{
    context.bodies.contains(bytes)
}

// A function has one body.
fn one_body(context: &Context<'_>, name: Name, body: &Option<Block>) -> Result<(), Refusal>
    ensures { Says (λ _. tt) result (one_body (context_view context.now) name (option_map source.body_view body.now)) }
{
    match body {
        Some(_) => {
            let again = has_body(context, context.bytes(name));
            unless(name.from, Kind::DoubleName, !again)
        }
        None => Ok(()),
    }
}

/// A name is none of the library.
pub fn not_library(context: &Context<'_>, name: Name) -> Result<(), Refusal>
    ensures { Says (λ _. tt) result (not_library (context_view context.now) name) }
{
    let is_free = library_name(context.bytes(name)).is_none();
    unless(name.from, Kind::DoubleName, is_free)
}

/// All that is judged at a function's name, whatever its type is.
pub fn name_fine(
    context: &Context<'_>,
    defined: &Defined<'_>,
    name: Name,
    body: &Option<Block>,
) -> Result<(), Refusal>
    ensures { (names : List (List ℕ)) → IsDefined names defined.now → Says (λ _. tt) result (name_fine (context_view context.now) names name (option_map source.body_view body.now)) }
{
    let before = before_name(context, name);
    let free = both_fine(not_library(context, name), once(name.from, before));
    let first = first_time(context, defined, name, is_new(before));
    both_fine(free, both_fine(first, one_body(context, name, body)))
}

/// What is judged there by its type.
pub fn type_fine(
    context: &Context<'_>,
    name: Name,
    params: &[CType],
    returned: &CType,
) -> Result<(), Refusal>
    ensures { Says (λ _. tt) result (agrees name.from (types_view params.now) (type_view returned.now) (before_name (context_view context.now) name)) }
{
    agrees(name.from, params, returned, before_name(context, name))
}

// What is judged of a result's type: it is no array (C11 6.7.6.3 p1), and no struct and no mutex.
fn result_fine(place: u32, t: &CType) -> Result<(), Refusal>
    ensures { Says (λ _. tt) result (result_fine place (type_view t.now)) }
{
    let no_array = unless(place, Kind::TypeMismatch, !is_array(t));
    let small = unless(place, Kind::OutsideSubset(13), !is_struct_or_mutex(t));
    both_fine(no_array, small)
}

/// A function returns no array, no struct and no mutex.
#[tactic(auto, using(type_context::proofs::Judging::refused_part, crate::proofs::HeadLaws::result_from))]
pub fn result_type(place: u32, t: CType) -> Result<CType, Refusal>
    ensures { Says type_view result (result_type place (type_view t)) }
{
    result_fine(place, &t)?;
    plain_type(place, t)
}

/// A parameter's type has a size, and is no struct and no mutex.
#[tactic(auto, using(type_context::proofs::Judging::refused_part))]
pub fn param_type(context: &Context<'_>, place: u32, t: CType) -> Result<CType, Refusal>
    ensures { Says type_view result (param_type (context_view context.now) place (type_view t)) }
{
    unless(place, Kind::BadSize, has_size(&context.structs, &t))?;
    unless(place, Kind::OutsideSubset(13), !is_struct_or_mutex(&t))?;
    Ok(t)
}

// ---- what a function's declaration leaves

// A function's name is one of the functions'.
fn name_function(context: &mut Context<'_>, name: Name) -> Result<(), CompileFault>
    ensures after { OnOk result (context_view context.new ≡ with_name (context_view context.old) name) }
    ensures memory { IfErr result (λ e. e ≡ NoMemory) }
{
    let bytes = context.bytes(name);
    context.functions.insert(bytes)?;
    Ok(())
}

/// Behind its declarator a function's name is in scope.
pub fn declare_function(
    context: &mut Context<'_>,
    defined: &Defined<'_>,
    name: Name,
    params: Vec<CType>,
    returned: CType,
) -> Result<(), CompileFault>
    ensures after { OnOk result ((names : List (List ℕ)) → IsDefined names defined.now → context_view context.new ≡ with_function (context_view context.old) names name (types_view params.items) (type_view returned)) }
    ensures memory { IfErr result (λ e. e ≡ NoMemory) }
{
    name_function(context, name)?;
    let meaning = Binding::Function {
        number: defined.place(context.bytes(name)),
        params,
        result: returned,
    };
    context.declare(name, meaning)
}

/// A function has a body.
pub fn add_body(context: &mut Context<'_>, name: Name) -> Result<(), CompileFault>
    ensures after { OnOk result (context_view context.new ≡ with_body (context_view context.old) name) }
    ensures memory { IfErr result (λ e. e ≡ NoMemory) }
{
    let bytes = context.bytes(name);
    context.bodies.insert(bytes)?;
    Ok(())
}

// ---- the functions of a file

// The name of a function that has a body.
fn defined_name(rest: &Rest) -> Option<Name>
    ensures { (text : List ℕ) → named_if text result ≡ defined_name text (source.rest_view rest.now) }
{
    match rest {
        Rest::Function {
            name,
            body: Some(_),
            ..
        } => Some(*name),
        _ => None,
    }
}

// The name that an external declaration gives a body; a typedef gives none.
fn defined_by(x: &External) -> Option<Name>
    ensures { (text : List ℕ) → named_if text result ≡ defined_by text (source.external_view x.now) }
{
    match x {
        External::Typedef { .. } => None,
        External::Other { rest, .. } => defined_name(rest),
    }
}

/// The functions that have a body.
pub fn all_defined<'t>(
    context: &Context<'t>,
    externals: &[External],
) -> Result<Defined<'t>, CompileFault>
    ensures names { IfOk result (λ d. IsDefined (defined_names (context_view context.now).text (map source.external_view externals.now)) d) }
    ensures memory { IfErr result (λ e. e ≡ NoMemory) }
{
    let mut defined = Defined {
        places: IndexMap::new(context.alloc),
        count: 0,
    };
    'externals: for x in externals {
        if let Some(name) = defined_by(x) {
            defined.define(context.bytes(name))?;
        }
    }
    Ok(defined)
}

// Whether it is `int main(void)`.
fn is_main(meaning: Option<&Binding>) -> bool
    ensures { result ≡ is_main (seen meaning.entry) }
{
    match meaning {
        Some(
            Binding::Function {
                params,
                result: CType::Int(t),
                ..
            },
        ) => params.is_empty() && same_int(*t, IntType::int()),
        _ => false,
    }
}

// Whether the file has it, with a body.
fn main_is_there(context: &Context<'_>, defined: &Defined<'_>, name: &[u8]) -> bool
    ensures { (names : List (List ℕ)) → IsDefined names defined.now → result ≡ (is_main (lookup (bytes_eq name.now) (context_view context.now).inner) && list_any (bytes_eq name.now) names) }
{
    is_main(context.inner.get(name)) && defined.has(name)
}

/// There is `int main(void)`, with a body: its number (C11 5.1.2.2.1).
pub fn main_of(context: &Context<'_>, defined: &Defined<'_>) -> Result<u32, CompileFault>
    ensures { (names : List (List ℕ)) → IsDefined names defined.now → Gives (λ n. n) result (has_main (context_view context.now) names) }
{
    let end = count(context.text.len())?;
    let name: &[u8] = b"main";
    let is_there = main_is_there(context, defined, name);
    as_fault(unless(end, Kind::UnknownName, is_there))?;
    Ok(defined.place(name))
}
