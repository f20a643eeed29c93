//! A whole file (C11 6.9).
ghost use Rattle.std.specs.Prelude.{◌≡◌, ℕ, List, [], map};
ghost use Rattle.std.specs.Option.{option_map};
ghost use Rattle.c_tree.specs.Syntax as trees;
ghost use Rattle.c_tree.specs.SyntaxViews as source;
ghost use Rattle.c_tree.specs.Typed.{Ty};
ghost use Rattle.c_tree.specs.TypedViews.{type_view, global_view, func_view, typed_view};
ghost use Rattle.c_typing.specs.Faults.{Judged, Gives, typed};
ghost use Rattle.c_typing.specs.Judgement.{ruled};
ghost use Rattle.c_typing.specs.Programs.{judged_aliases, judged_rest, behind_specs, no_objects, judged_external, judged_externals, whole_file, judged_file};
ghost use Rattle.type_context.specs.ContextViews.{context_view};
ghost use Rattle.type_context.specs.inner.Outcomes as outcomes;
ghost use Rattle.type_declared.specs.FunctionNames.{IsDefined};
ghost use Rattle.type_context.specs.Telling.{Tells};
ghost use Rattle.type_declared.specs.Gathering.{each};
ghost use Rattle.c_types.specs.inner.Files.{made_view, IsMade};

use crate::declarators::specifiers;
use crate::definitions::function;
use crate::globals::globals;
use crate::typedefs::typedef;
use c_lex::CompileFault;
use c_tree::syntax as tree;
use c_tree::syntax::{
    Block, Declarator, External, InitDeclarator, Name, Pointer, Program, Rest, Spec,
};
use c_tree::typed::{CType, Func, GlobalVar, Typed};
use std::alloc::Global;
use std::mem;
use type_context::context::Context;
use type_context::faults::both;
use type_declared::functions::{Defined, all_defined, main_of};

/// What an external declaration makes.
#[derive(Drop)]
pub struct Made {
    pub globals: Vec<GlobalVar>,
    pub funcs: Vec<Func>,
}

// Globals, and nothing else.
fn made_globals(alloc: Global, globals: Vec<GlobalVar>) -> Made
    ensures { made_view result ≡ record { globals = each global_view globals; funcs = [] } }
{
    Made {
        globals,
        funcs: Vec::new(alloc),
    }
}

// Functions, and nothing else.
fn made_funcs(alloc: Global, funcs: Vec<Func>) -> Made
    ensures { made_view result ≡ record { globals = []; funcs = each func_view funcs } }
{
    Made {
        globals: Vec::new(alloc),
        funcs,
    }
}

// Nothing.
fn made_nothing(alloc: Global) -> Made
    ensures { made_view result ≡ record { globals = []; funcs = [] } }
{
    Made {
        globals: Vec::new(alloc),
        funcs: Vec::new(alloc),
    }
}

// A function, and nothing else.
fn function_alone(
    context: &mut Context<'_>,
    defined: &Defined<'_>,
    base: &Result<CType, CompileFault>,
    pointers: &[Pointer],
    name: Name,
    params: &[tree::Param],
    body: &Option<Block>,
) -> Result<Made, CompileFault>
    ensures { (names : List (List ℕ)) (j : Judged Ty) → IsDefined names defined.now → Gives type_view base.now j → Tells made_view result context.new (judged_rest names j (trees.function pointers.now name (map source.param_view params.now) (option_map source.body_view body.now)) (context_view context.old)) }
{
    let funcs = function(context, defined, base, pointers, name, params, body)?;
    Ok(made_funcs(context.alloc, funcs))
}

// Globals, and nothing else.
fn globals_alone(
    context: &mut Context<'_>,
    base: &Result<CType, CompileFault>,
    declarators: &[InitDeclarator],
) -> Result<Made, CompileFault>
    ensures { (names : List (List ℕ)) (j : Judged Ty) → Gives type_view base.now j → Tells made_view result context.new (judged_rest names j (trees.variables (map source.init_declarator_view declarators.now)) (context_view context.old)) }
{
    let all = globals(context, base, declarators)?;
    Ok(made_globals(context.alloc, all))
}

// What stands behind specifiers.
fn rest(
    context: &mut Context<'_>,
    defined: &Defined<'_>,
    base: &Result<CType, CompileFault>,
    x: &Rest,
) -> Result<Made, CompileFault>
    ensures { (names : List (List ℕ)) (j : Judged Ty) → IsDefined names defined.now → Gives type_view base.now j → Tells made_view result context.new (judged_rest names j (source.rest_view x.now) (context_view context.old)) }
{
    match x {
        Rest::Nothing => Ok(made_nothing(context.alloc)),
        Rest::Function {
            pointers,
            name,
            params,
            body,
        } => function_alone(context, defined, base, pointers, *name, params, body),
        Rest::Variables(declarators) => globals_alone(context, base, declarators),
    }
}

// An external declaration that makes objects or functions.
fn other(
    context: &mut Context<'_>,
    defined: &Defined<'_>,
    specs: &[Spec],
    x: &Rest,
) -> Result<Made, CompileFault>
    ensures { (names : List (List ℕ)) → IsDefined names defined.now → Tells made_view result context.new (behind_specs (map source.spec_view specs.now) (λ base. judged_rest names base (source.rest_view x.now)) (context_view context.old)) }
{
    let base = specifiers(context, specs);
    let made = rest(context, defined, &base, x);
    let (_, made) = both(base, made)?;
    Ok(made)
}

// A typedef makes no object and no function.
fn typedef_alone(
    context: &mut Context<'_>,
    specs: &[Spec],
    declarators: &[Declarator],
) -> Result<Made, CompileFault>
    ensures { Tells made_view result context.new (ruled (behind_specs (map source.spec_view specs.now) (λ base. judged_aliases base (map source.declarator_view declarators.now))) (λ c u. typed no_objects) (context_view context.old)) }
{
    typedef(context, specs, declarators)?;
    Ok(made_nothing(context.alloc))
}

// An external declaration.
fn external(
    context: &mut Context<'_>,
    defined: &Defined<'_>,
    x: &External,
) -> Result<Made, CompileFault>
    ensures { (names : List (List ℕ)) → IsDefined names defined.now → Tells made_view result context.new (judged_external names (source.external_view x.now) (context_view context.old)) }
{
    match x {
        External::Typedef { specs, declarators } => typedef_alone(context, specs, declarators),
        External::Other { specs, rest, .. } => other(context, defined, specs, rest),
    }
}

// What two parts of a file make, one behind the other.
fn joined(
    all: Result<Made, CompileFault>,
    next: Result<Made, CompileFault>,
) -> Result<Made, CompileFault>
    ensures { IsMade (outcomes.joined all next) result }
{
    let (mut all, mut next) = both(all, next)?;
    all.globals.append(&mut next.globals)?;
    all.funcs.append(&mut next.funcs)?;
    Ok(all)
}

// The external declarations of a file.
fn externals(
    context: &mut Context<'_>,
    defined: &Defined<'_>,
    xs: &[External],
) -> Result<Made, CompileFault>
    ensures { (names : List (List ℕ)) → IsDefined names defined.now → Tells made_view result context.new (judged_externals names (map source.external_view xs.now) (context_view context.old)) }
{
    let mut all = Ok(made_nothing(context.alloc));
    'externals: for x in xs {
        let next = external(context, defined, x);
        all = joined(all, next);
    }
    all
}

// A file, judged from its first declaration on in this context.
fn whole_file(context: &mut Context<'_>, file: &Program) -> Result<Typed, CompileFault>
    ensures { Gives typed_view result (whole_file (source.view file.now) (context_view context.old)) }
{
    let defined = all_defined(context, &file.externals)?;
    let made = externals(context, &defined, &file.externals);
    let main = main_of(context, &defined);
    let (made, main) = both(made, main)?;
    Ok(Typed {
        structs: mem::replace(&mut context.structs, Vec::new(context.alloc)),
        globals: made.globals,
        literals: mem::replace(&mut context.literals, Vec::new(context.alloc)),
        funcs: made.funcs,
        main,
    })
}

/// The typed tree of a file, or the first of all its faults: at the least place, and there the one
/// of the least number.
///
/// # Errors
///
/// `Refused` where a rule of the language is broken, and `NoMemory`.
pub fn check(alloc: Global, text: &[u8], file: &Program) -> Result<Typed, CompileFault>
    ensures { Gives typed_view result (judged_file text.now (source.view file.now)) }
{
    let mut context = Context::at_start(alloc, text);
    whole_file(&mut context, file)
}
