//! Reading functions, globals and whole files.

ghost use Rattle.std.specs.Prelude.{◌≡◌, ◌<◌, ◌^◌, ◌∷◌, [], length, map, IfOk};
ghost use Rattle.c_tree.specs.TypedViews.{init_view, literal_view};
ghost use Rattle.struct_ir.specs.Nodes.{Ir};
ghost use Rattle.struct_ir.specs.Views.{object_view, global_view};
ghost use Rattle.formats.specs.Formats.{at_number, behind_tag, byte, list, whole};
ghost use Rattle.formats.specs.Laws.{Spells};
ghost use Rattle.code_file.specs.inner.Gives.{Gives};
ghost use Rattle.code_file.specs.Files as files;
ghost use Rattle.code_file.specs.Files.{object, func, init_fields, make_init, init, global, begins_file, file};
ghost use Rattle.code_file.specs.RawViews.{raw_func_view, raw_view};
ghost use Rattle.code_file.specs.Reads.{Reads};

use crate::actions::text_at;
use crate::fault::Fault;
use crate::nodes::nodes_at;
use crate::numbers::{byte_at, exactly_at, tag_at, type_at, u32_at, value_at};
use crate::raw::{RawCode, RawFunc};
use c_tree::typed::{Init, Literal};
use std::alloc::Global;
use struct_ir::code::{IrGlobal, StackObject};

/// Why a file was not read.
#[derive(Clone, Copy, Debug, PartialEq, Eq)]
pub enum ReadFault {
    /// Want of memory, which no clause ties to a cause.
    NoMemory,
    /// The bytes are no file of code: so long is their longest front that begins one.
    BadCode(u32),
}

/// A stack object.
#[tactic(auto, unfolding(crate::specs::Files::object))]
fn object_at(bytes: &[u8]) -> Result<(StackObject, &[u8]), Fault>
    ensures { Gives (λ x. (object_view x.0, x.1.now)) result (object.read bytes.now) }
{
    let (size, rest) = u32_at(bytes)?;
    let (align, rest) = byte_at(rest)?;
    Ok((StackObject { size, align }, rest))
}

/// A list of stack objects.
fn objects_at(alloc: Global, bytes: &[u8]) -> Result<(Vec<StackObject>, &[u8]), Fault>
    ensures { Gives (λ x. (map object_view x.0.items, x.1.now)) result ((list object).read bytes.now) }
{
    let (count, begin) = u32_at(bytes)?;
    let mut all = Vec::new(alloc);
    let mut rest = begin;
    for _ in 0..count {
        let (one, after) = object_at(rest)?;
        all.push(one)?;
        rest = after;
    }
    Ok((all, rest))
}

/// A function.
#[tactic(auto, unfolding(crate::specs::Files::func))]
fn func_at(alloc: Global, depth: u32, bytes: &[u8]) -> Result<(RawFunc, &[u8]), Fault>
    ensures { Gives (λ x. (raw_func_view x.0, x.1.now)) result ((func depth).read bytes.now) }
{
    let (params, rest) = u32_at(bytes)?;
    let (temps, rest) = u32_at(rest)?;
    let (slots, rest) = u32_at(rest)?;
    let (objects, rest) = objects_at(alloc, rest)?;
    let (nodes, rest) = nodes_at(alloc, depth, rest)?;
    let func = RawFunc {
        params,
        temps,
        slots,
        objects,
        nodes,
    };
    Ok((func, rest))
}

/// A list of functions.
fn funcs_at(alloc: Global, depth: u32, bytes: &[u8]) -> Result<(Vec<RawFunc>, &[u8]), Fault>
    ensures { Gives (λ x. (map raw_func_view x.0.items, x.1.now)) result ((list (func depth)).read bytes.now) }
{
    let (count, begin) = u32_at(bytes)?;
    let mut all = Vec::new(alloc);
    let mut rest = begin;
    for _ in 0..count {
        let (one, after) = func_at(alloc, depth, rest)?;
        all.push(one)?;
        rest = after;
    }
    Ok((all, rest))
}

/// A number at the start.
fn number_at_start(bytes: &[u8]) -> Result<(Init, &[u8]), Fault>
    ensures { Gives (λ x. (init_view x.0, x.1.now)) result (behind_tag init_fields make_init files.number bytes.now) }
{
    let (ty, rest) = type_at(bytes)?;
    let (number, rest) = value_at(ty, rest)?;
    Ok((Init::Num(number), rest))
}

/// A pointer to a literal at the start.
fn literal_at_start(bytes: &[u8]) -> Result<(Init, &[u8]), Fault>
    ensures { Gives (λ x. (init_view x.0, x.1.now)) result (behind_tag init_fields make_init files.literal_at bytes.now) }
{
    let (number, rest) = u32_at(bytes)?;
    Ok((Init::Literal(number), rest))
}

/// What a global holds at the start, behind a tag of this number.
fn init_of(tag: u8, bytes: &[u8]) -> Result<(Init, &[u8]), Fault>
    requires { tag < 3 }
    ensures { Gives (λ x. (init_view x.0, x.1.now)) result (behind_tag init_fields make_init (at_number files.zero_bytes (files.number ∷ files.literal_at ∷ []) tag) bytes.now) }
{
    match tag {
        0 => Ok((Init::Zero, bytes)),
        1 => number_at_start(bytes),
        _ => literal_at_start(bytes),
    }
}

/// What a global holds at the start.
#[tactic(auto, using(crate::proofs::Tagged::init_read, crate::proofs::Tagged::init_not_read))]
fn init_at(bytes: &[u8]) -> Result<(Init, &[u8]), Fault>
    ensures { Gives (λ x. (init_view x.0, x.1.now)) result (init.read bytes.now) }
{
    let (tag, rest) = tag_at(3, bytes)?;
    init_of(tag, rest)
}

/// A global.
#[tactic(auto, unfolding(crate::specs::Files::global))]
fn global_at(bytes: &[u8]) -> Result<(IrGlobal, &[u8]), Fault>
    ensures { Gives (λ x. (global_view x.0, x.1.now)) result (global.read bytes.now) }
{
    let (size, rest) = u32_at(bytes)?;
    let (align, rest) = byte_at(rest)?;
    let (init, rest) = init_at(rest)?;
    Ok((IrGlobal { size, align, init }, rest))
}

/// A list of globals.
fn globals_at(alloc: Global, bytes: &[u8]) -> Result<(Vec<IrGlobal>, &[u8]), Fault>
    ensures { Gives (λ x. (map global_view x.0.items, x.1.now)) result ((list global).read bytes.now) }
{
    let (count, begin) = u32_at(bytes)?;
    let mut all = Vec::new(alloc);
    let mut rest = begin;
    for _ in 0..count {
        let (one, after) = global_at(rest)?;
        all.push(one)?;
        rest = after;
    }
    Ok((all, rest))
}

/// A string literal.
fn literal_at(alloc: Global, bytes: &[u8]) -> Result<(Literal, &[u8]), Fault>
    ensures { Gives (λ x. (literal_view x.0, x.1.now)) result ((list byte).read bytes.now) }
{
    let (text, rest) = text_at(alloc, bytes)?;
    Ok((Literal { bytes: text }, rest))
}

/// A list of string literals.
fn literals_at(alloc: Global, bytes: &[u8]) -> Result<(Vec<Literal>, &[u8]), Fault>
    ensures { Gives (λ x. (map literal_view x.0.items, x.1.now)) result ((list (list byte)).read bytes.now) }
{
    let (count, begin) = u32_at(bytes)?;
    let mut all = Vec::new(alloc);
    let mut rest = begin;
    for _ in 0..count {
        let (one, after) = literal_at(alloc, rest)?;
        all.push(one)?;
        rest = after;
    }
    Ok((all, rest))
}

const HEAD: [u8; 8] = [65, 76, 83, 75, 1, 0, 0, 0];

/// The bytes with which each file begins.
fn head() -> &'static [u8]
    ensures { result.now ≡ begins_file }
{
    &HEAD
}

/// A file, and what stands behind it.
#[tactic(auto, unfolding(crate::specs::Files::file))]
fn file_at(alloc: Global, depth: u32, bytes: &[u8]) -> Result<(RawCode, &[u8]), Fault>
    ensures { Gives (λ x. (raw_view x.0, x.1.now)) result ((file depth).read bytes.now) }
{
    let rest = exactly_at(head(), bytes)?;
    let (main, rest) = u32_at(rest)?;
    let (globals, rest) = globals_at(alloc, rest)?;
    let (literals, rest) = literals_at(alloc, rest)?;
    let (funcs, rest) = funcs_at(alloc, depth, rest)?;
    let code = RawCode {
        main,
        globals,
        literals,
        funcs,
    };
    Ok((code, rest))
}

/// A file that is all of the bytes.
fn whole_file(alloc: Global, depth: u32, bytes: &[u8]) -> Result<RawCode, Fault>
    ensures { Gives raw_view result (whole (file depth) bytes.now) }
{
    let (code, rest) = file_at(alloc, depth, bytes)?;
    if !rest.is_empty() {
        return Err(Fault::Bad(rest.len()));
    }
    Ok(code)
}

/// The code that the bytes of a file spell, of nodes that are nested at most 1,024 deep; it isn't judged yet.
///
/// # Errors
///
/// `BadCode` exactly where the bytes spell none, with the length of their longest front that begins such a file; and want of
/// memory.
pub fn read_code(alloc: Global, bytes: &[u8]) -> Result<RawCode, ReadFault>
    requires { length bytes.now < 2 ^ 32 }
    ensures reads { Reads bytes.now result }
    // Reading what spells a code gives that code.
    ensures same { (c : Ir) → Spells (file 1024) c bytes.now → IfOk result (λ x. raw_view x ≡ c) }
{
    match whole_file(alloc, 1024, bytes) {
        Ok(code) => Ok(code),
        Err(Fault::NoMemory) => Err(ReadFault::NoMemory),
        Err(Fault::Bad(left)) => {
            let left = left.min(bytes.len());
            Err(ReadFault::BadCode((bytes.len() - left) as u32))
        }
    }
}
