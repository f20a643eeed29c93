//! Objects that are declared: their names and types among the others' (C11 6.7, 6.9.2).
ghost use Rattle.std.specs.Prelude.{◌≡◌, false, OnOk, IfOk, IfErr, length};
ghost use Rattle.c_lex.specs.declared.refusal.CompileFault.TheVariants.{NoMemory};
ghost use Rattle.c_tree.specs.Typed.{Ty};
ghost use Rattle.c_tree.specs.TypedViews.{type_view};
ghost use Rattle.c_tree.specs.TypedLayout.{size_in};
ghost use Rattle.c_typing.specs.Faults.{Judged, Gives};
ghost use Rattle.c_typing.specs.Statements.{or_int, with_local, local_fine};
ghost use Rattle.c_typing.specs.Programs.{with_param, with_global, fresh_if, global_fine};
ghost use Rattle.type_context.specs.ContextViews.{context_view};
ghost use Rattle.type_context.specs.Telling.{Says, lacks_memory};
ghost use Rattle.type_declared.specs.ObjectFits.{fits_of};

use ak_words::IntType;
use c_lex::{CompileFault, Refusal};
use c_tree::copies::copy_type;
use c_tree::syntax::Name;
use c_tree::typed::CType;
use std::alloc::Global;
use type_context::context::{Context, count, within};
use type_context::faults::{as_fault, both, both_or_refusal};
use type_context::layouts::size_in;
use type_context::names::Binding;

/// A function's locals and parameters, of which there are so many at most (this project's profile).
pub const MOST_LOCALS: usize = 1024;

/// The globals that there may be.
const MOST_GLOBALS: usize = 4096;

/// The type that a declarator declares, or int where it is at fault: no name is used before its
/// declarator, so what it means then is nowhere seen.
pub fn or_int(alloc: Global, t: &Result<CType, CompileFault>) -> Result<CType, CompileFault>
    ensures declared { (j : Judged Ty) → Gives type_view t.now j → IfOk result (λ s. type_view s ≡ or_int j) }
    ensures kept { OnOk result (lacks_memory t.now ≡ false) }
    ensures memory { IfErr result (λ e. e ≡ NoMemory) }
{
    match t {
        Ok(t) => Ok(copy_type(alloc, t)?),
        Err(CompileFault::Refused(_)) => Ok(CType::Int(IntType::int())),
        Err(CompileFault::NoMemory) => Err(CompileFault::NoMemory),
    }
}

// The bytes of an object of a type.
fn size_of(context: &Context<'_>, t: &CType) -> Result<u32, CompileFault>
    ensures size { IfOk result (λ n. n ≡ size_in (context_view context.now).structs (type_view t.now)) }
    ensures memory { IfErr result (λ e. e ≡ NoMemory) }
{
    match size_in(&context.structs, t) {
        Some(size) => u32::try_from(size).map_err(|_| CompileFault::NoMemory),
        None => Err(CompileFault::NoMemory),
    }
}

/// A local is in scope behind its declarator.
pub fn declare_local(context: &mut Context<'_>, name: Name, ty: CType) -> Result<(), CompileFault>
    ensures after { OnOk result (context_view context.new ≡ with_local (context_view context.old) name (type_view ty)) }
    ensures memory { IfErr result (λ e. e ≡ NoMemory) }
{
    let number = count(context.locals.len())?;
    let copy = copy_type(context.alloc, &ty)?;
    context.declare(name, Binding::Local(number, copy))?;
    context.locals.push(ty)?;
    Ok(())
}

/// A parameter is a local, and in scope if it has a name.
pub fn declare_param(
    context: &mut Context<'_>,
    name: Option<Name>,
    ty: CType,
) -> Result<(), CompileFault>
    ensures after { OnOk result (context_view context.new ≡ with_param (context_view context.old) name (type_view ty)) }
    ensures memory { IfErr result (λ e. e ≡ NoMemory) }
{
    match name {
        Some(name) => declare_local(context, name, ty),
        None => {
            context.locals.push(ty)?;
            Ok(())
        }
    }
}

/// A parameter's name is declared once.
pub fn fresh_if(context: &Context<'_>, name: Option<Name>) -> Result<(), Refusal>
    ensures { Says (λ _. tt) result (fresh_if (context_view context.now) name) }
{
    match name {
        Some(name) => context.fresh(name),
        None => Ok(()),
    }
}

/// A global is in scope behind its declarator, and takes its bytes.
pub fn declare_global(context: &mut Context<'_>, name: Name, ty: CType) -> Result<(), CompileFault>
    ensures after { OnOk result (context_view context.new ≡ with_global (context_view context.old) name (type_view ty)) }
    ensures memory { IfErr result (λ e. e ≡ NoMemory) }
{
    let number = count(context.globals.len())?;
    let size = size_of(context, &ty)?;
    let copy = copy_type(context.alloc, &ty)?;
    context.declare(name, Binding::Global(number, copy))?;
    context.take_plain(size)?;
    context.globals.push(ty)?;
    Ok(())
}

/// Whether a global of the type fits among the plain objects, where it has one. That a type's size
/// is a number of 32 bits is known of judged types alone: where it isn't, the answer would be want
/// of memory.
pub fn global_fits(
    context: &Context<'_>,
    place: u32,
    t: &Result<CType, CompileFault>,
) -> Result<(), CompileFault>
    ensures { (j : Judged Ty) → Gives type_view t.now j → Gives (λ _. tt) result (fits_of (context_view context.now) place j) }
{
    match t {
        Ok(t) => {
            let size = size_of(context, t)?;
            as_fault(context.fits_plain(place, size))
        }
        Err(fault) => Err(*fault),
    }
}

/// The number of the next local.
pub fn local_number(context: &Context<'_>) -> Result<u32, CompileFault>
    ensures number { IfOk result (λ n. n ≡ length (context_view context.now).locals) }
    ensures memory { IfErr result (λ e. e ≡ NoMemory) }
{
    count(context.locals.len())
}

/// What is judged at a local's name, whatever its type is.
pub fn fine_local(context: &Context<'_>, name: Name) -> Result<((), ()), Refusal>
    ensures { Says (λ x. x) result (local_fine (context_view context.now) name) }
{
    let few = within(name.from, 5, MOST_LOCALS, context.locals.len());
    both_or_refusal(context.fresh(name), few)
}

/// What is judged at a global's name.
pub fn global_fine(
    context: &Context<'_>,
    name: Name,
    t: &Result<CType, CompileFault>,
) -> Result<((), ((), ())), CompileFault>
    ensures { (j : Judged Ty) → Gives type_view t.now j → Gives (λ x. x) result (global_fine (context_view context.now) name j) }
{
    let few = as_fault(within(name.from, 2, MOST_GLOBALS, context.globals.len()));
    let room = both(few, global_fits(context, name.from, t));
    both(as_fault(context.fresh(name)), room)
}
