//! What is judged at a function's name, and the types of its parameters and of its result (C11 6.7.6.3, 6.9.1).
ghost use Rattle.std.specs.Prelude.{◌≡◌, ℕ, List, map, IfOk, IfErr};
ghost use Rattle.std.specs.Option.{option_map};
ghost use Rattle.c_lex.specs.declared.refusal.CompileFault.TheVariants.{NoMemory};
ghost use Rattle.c_tree.specs.SyntaxViews as source;
ghost use Rattle.c_tree.specs.Typed.{Ty};
ghost use Rattle.c_tree.specs.TypedViews.{type_view};
ghost use Rattle.c_typing.specs.Faults.{Judged, Gives, mapped};
ghost use Rattle.c_typing.specs.Numbering as numbers;
ghost use Rattle.c_typing.specs.Programs.{result_of, types_fine, head_fine, types_or};
ghost use Rattle.type_context.specs.ContextViews.{context_view, types_view};
ghost use Rattle.type_locals.specs.LocalViews.{param_view};
ghost use Rattle.type_declared.specs.FunctionNames.{IsDefined};
ghost use Rattle.type_declared.specs.Gathering.{each};

use crate::functions::{Defined, name_fine, result_type, type_fine};
use c_lex::CompileFault;
use c_tree::syntax::{Block, Name, Pointer};
use c_tree::typed::CType;
use std::alloc::Global;
use type_context::context::Context;
use type_context::faults::{as_fault, both};
use type_context::kinds::value_type;
use type_context::outcomes::again;
use type_locals::locals::{Param, passed_type};
use type_rules::specifiers::behind_pointers;

/// What a function returns, by the type that its specifiers name; of an atomic number the number.
#[tactic(auto, using(type_context::proofs::Judging::fails_part))]
pub fn result_of(
    alloc: Global,
    place: u32,
    base: Result<CType, CompileFault>,
    pointers: &[Pointer],
) -> Result<CType, CompileFault>
    ensures { (j : Judged Ty) → Gives type_view base j → Gives type_view result (result_of place j pointers.now) }
{
    let named = base?;
    let behind = behind_pointers(alloc, named, pointers)?;
    as_fault(result_type(place, value_type(behind)))
}

/// The types of parameters, or none where one is at fault.
pub fn types_or(
    alloc: Global,
    params: &Result<Vec<Param>, CompileFault>,
) -> Result<Vec<CType>, CompileFault>
    ensures types { (j : Judged (List numbers.Param)) → Gives (each param_view) params.now j → IfOk result (λ ts. types_view ts.items ≡ types_or j) }
    ensures memory { IfErr result (λ e. e ≡ NoMemory) }
{
    match params {
        Ok(params) => types_of(alloc, params),
        Err(CompileFault::Refused(_)) => Ok(Vec::new(alloc)),
        Err(CompileFault::NoMemory) => Err(CompileFault::NoMemory),
    }
}

// The types of parameters.
fn types_of(alloc: Global, params: &[Param]) -> Result<Vec<CType>, CompileFault>
    ensures types { IfOk result (λ ts. types_view ts.items ≡ map numbers.passed_type (map param_view params.now)) }
    ensures memory { IfErr result (λ e. e ≡ NoMemory) }
{
    let mut all = Vec::new(alloc);
    'params: for p in params {
        all.push(passed_type(alloc, p)?)?;
    }
    Ok(all)
}

// The parameters and the result, judged by what the name meant before.
fn types_fine(
    context: &Context<'_>,
    name: Name,
    params: &Result<Vec<Param>, CompileFault>,
    returned: &Result<CType, CompileFault>,
) -> Result<(), CompileFault>
    ensures { (j : Judged (List numbers.Param)) (k : Judged Ty) → Gives (each param_view) params.now j → Gives type_view returned.now k → Gives (λ _. tt) result (types_fine (context_view context.now) name j k) }
{
    let types = typed_params(context.alloc, params);
    let returned = again(context.alloc, returned);
    let (types, returned) = both(types, returned)?;
    as_fault(type_fine(context, name, &types, &returned))
}

// The types of parameters that are typed.
fn typed_params(
    alloc: Global,
    params: &Result<Vec<Param>, CompileFault>,
) -> Result<Vec<CType>, CompileFault>
    ensures { (j : Judged (List numbers.Param)) → Gives (each param_view) params.now j → Gives (each type_view) result (mapped (map numbers.passed_type) j) }
{
    match params {
        Ok(params) => types_of(alloc, params),
        Err(fault) => Err(*fault),
    }
}

/// All that is judged at a function's name.
pub fn head_fine(
    context: &Context<'_>,
    defined: &Defined<'_>,
    name: Name,
    body: &Option<Block>,
    params: &Result<Vec<Param>, CompileFault>,
    returned: &Result<CType, CompileFault>,
) -> Result<((), ()), CompileFault>
    ensures { (names : List (List ℕ)) (j : Judged (List numbers.Param)) (k : Judged Ty) → IsDefined names defined.now → Gives (each param_view) params.now j → Gives type_view returned.now k → Gives (λ x. x) result (head_fine (context_view context.now) names name (option_map source.body_view body.now) j k) }
{
    let types = types_fine(context, name, params, returned);
    let named = as_fault(name_fine(context, defined, name, body));
    both(named, types)
}
