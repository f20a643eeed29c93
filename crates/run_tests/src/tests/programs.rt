//! What the tests are given.

use ak_words::{IntType, NoMemory};
use c_tree::typed::CType;
use source_tree::tree::{SharedExpr, SharedNode, SharedProgram};
use std::alloc::Global;
use std::rc::Rc;

/// An `int` expression at a place.
pub fn int(alloc: Global, place: u32, node: SharedNode) -> Result<Rc<SharedExpr>, NoMemory> {
    let ty = Rc::new(alloc, CType::Int(IntType::int()))?;
    Ok(Rc::new(alloc, SharedExpr { place, ty, node })?)
}

/// A program with nothing in it.
pub fn empty(alloc: Global) -> SharedProgram {
    SharedProgram {
        structs: Vec::new(alloc),
        globals: Vec::new(alloc),
        literals: Vec::new(alloc),
        funcs: Vec::new(alloc),
        main: 0,
    }
}
