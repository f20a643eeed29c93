//! Writing functions, globals and whole files.

ghost use Rattle.std.specs.Prelude.{◌≡◌, true, map, OnOk};
ghost use Rattle.std.specs.List.{list_all};
ghost use Rattle.c_tree.specs.TypedViews.{init_view, literal_view};
ghost use Rattle.struct_ir.specs.Views.{object_view, global_view, func_view};
ghost use Rattle.struct_ir.specs.WholeViews.{ir_view};
ghost use Rattle.formats.specs.Formats.{byte, list};
ghost use Rattle.code_file.specs.Files as formats;
ghost use Rattle.code_file.specs.Files.{func, init_number, init_fields, init_parts, file};
ghost use Rattle.code_file.specs.Calls.{func_bare, ir_bare};
ghost use Rattle.code_save.specs.inner.Fits.{func_fits};
ghost use Rattle.code_save.specs.inner.Written.{Wrote};

use crate::actions::put_text;
use crate::nodes::put_nodes;
use crate::numbers::{put_byte, put_count, put_number, put_u32};
use crate::output::Output;
use ak_words::NoMemory;
use c_tree::typed::{Init, Literal};
use struct_ir::Ir;
use struct_ir::code::{IrFunc, IrGlobal, StackObject};

/// A stack object.
fn put_object(out: &mut Output, object: &StackObject) -> Result<(), NoMemory>
    ensures { OnOk result (Wrote formats.object (object_view object.now) true out.old out.new) }
{
    put_u32(out, object.size)?;
    put_byte(out, object.align)
}

/// A list of stack objects.
fn put_objects(out: &mut Output, objects: &[StackObject]) -> Result<(), NoMemory>
    ensures { OnOk result (Wrote (list formats.object) (map object_view objects.now) true out.old out.new) }
{
    put_count(out, objects.len())?;
    for object in objects {
        put_object(out, object)?;
    }
    Ok(())
}

/// A function, of nodes that are nested at most so deep.
fn put_func(out: &mut Output, levels: u32, f: &IrFunc) -> Result<(), NoMemory>
    ensures { OnOk result (Wrote (func levels) (func_bare (func_view f.now)) (func_fits levels (func_view f.now)) out.old out.new) }
{
    put_u32(out, f.params)?;
    put_u32(out, f.temps)?;
    put_u32(out, f.slots)?;
    put_objects(out, &f.objects)?;
    put_nodes(out, levels, &f.nodes)
}

/// A list of functions.
fn put_funcs(out: &mut Output, levels: u32, funcs: &[IrFunc]) -> Result<(), NoMemory>
    ensures { OnOk result (Wrote (list (func levels)) (map func_bare (map func_view funcs.now)) (list_all (func_fits levels) (map func_view funcs.now)) out.old out.new) }
{
    put_count(out, funcs.len())?;
    for f in funcs {
        put_func(out, levels, f)?;
    }
    Ok(())
}

/// The tag of what a global holds at the start.
fn tag_of(init: Init) -> u8
    ensures { result ≡ init_number (init_parts (init_view init)).0 }
{
    match init {
        Init::Zero => 0,
        Init::Num(_) => 1,
        Init::Literal(_) => 2,
    }
}

/// What stands behind the tag.
fn put_fields(out: &mut Output, init: Init) -> Result<(), NoMemory>
    ensures { OnOk result (Wrote (init_fields (init_parts (init_view init)).0) (init_parts (init_view init)).1 true out.old out.new) }
{
    match init {
        Init::Zero => Ok(()),
        Init::Num(number) => put_number(out, number),
        Init::Literal(n) => put_u32(out, n),
    }
}

/// What a global holds at the start.
fn put_init(out: &mut Output, init: Init) -> Result<(), NoMemory>
    ensures { OnOk result (Wrote formats.init (init_view init) true out.old out.new) }
{
    out.put(&[tag_of(init)])?;
    put_fields(out, init)
}

/// A global.
fn put_global(out: &mut Output, global: &IrGlobal) -> Result<(), NoMemory>
    ensures { OnOk result (Wrote formats.global (global_view global.now) true out.old out.new) }
{
    put_u32(out, global.size)?;
    put_byte(out, global.align)?;
    put_init(out, global.init)
}

/// A list of globals.
fn put_globals(out: &mut Output, globals: &[IrGlobal]) -> Result<(), NoMemory>
    ensures { OnOk result (Wrote (list formats.global) (map global_view globals.now) true out.old out.new) }
{
    put_count(out, globals.len())?;
    for global in globals {
        put_global(out, global)?;
    }
    Ok(())
}

/// A list of string literals.
fn put_literals(out: &mut Output, literals: &[Literal]) -> Result<(), NoMemory>
    ensures { OnOk result (Wrote (list (list byte)) (map literal_view literals.now) true out.old out.new) }
{
    put_count(out, literals.len())?;
    for literal in literals {
        put_text(out, &literal.bytes)?;
    }
    Ok(())
}

const HEAD: [u8; 8] = [65, 76, 83, 75, 1, 0, 0, 0];

/// A file, of nodes that are nested at most so deep.
pub fn put_file(out: &mut Output, levels: u32, ir: &Ir) -> Result<(), NoMemory>
    ensures { OnOk result (Wrote (file levels) (ir_bare (ir_view ir.now)) (list_all (func_fits levels) (ir_view ir.now).funcs) out.old out.new) }
{
    out.put(&HEAD)?;
    put_u32(out, ir.main)?;
    put_globals(out, &ir.globals)?;
    put_literals(out, &ir.literals)?;
    put_funcs(out, levels, &ir.funcs)
}
