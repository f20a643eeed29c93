//! What is left to do behind the parts of an assignment.

ghost use Rattle.std.specs.Prelude.{◌≡◌, IfOk};
ghost use Rattle.c_tree.specs.TypedViews.{type_view};
ghost use Rattle.c_meaning.specs.Control as control;
ghost use Rattle.source_tree.specs.SharedViews.{expr_of};
ghost use Rattle.source_state.specs.Views.{use_of, todo_of, updating_of};

use ak_words::NoMemory;
use block_store::Value;
use c_tree::typed::CType;
use source_state::control::{Site, Todo, Updating, Use};
use source_tree::tree::SharedExpr;
use std::alloc::Global;
use std::rc::Rc;

/// Behind a value that is put into a local.
pub fn to_local(alloc: Global, number: u32, k: &Rc<Todo>) -> Result<Rc<Use>, NoMemory>
    ensures { IfOk result (λ after. use_of after.value ≡ control.to_local number (todo_of k.now.value)) }
{
    Ok(Rc::new(alloc, Use::ToLocal(number, k.clone()?))?)
}

/// Behind a value that is stored at a place.
pub fn to_place(alloc: Global, site: Site, to: Value, k: &Rc<Todo>) -> Result<Rc<Use>, NoMemory>
    ensures { IfOk result (λ after. use_of after.value ≡ control.to_place site.place site.atomic to (todo_of k.now.value)) }
{
    Ok(Rc::new(alloc, Use::ToPlace(site, to, k.clone()?))?)
}

/// Behind the place of the left side of an assignment.
pub fn left_place(
    alloc: Global,
    site: Site,
    right: &Rc<SharedExpr>,
    k: &Rc<Todo>,
) -> Result<Rc<Use>, NoMemory>
    ensures { IfOk result (λ after. use_of after.value ≡ control.left_place site.place site.atomic (expr_of right.now.value) (todo_of k.now.value)) }
{
    Ok(Rc::new(alloc, Use::LeftPlace(site, right.clone()?, k.clone()?))?)
}

/// Behind the place of the left side of an assigned struct.
pub fn struct_left(
    alloc: Global,
    place: u32,
    ty: &Rc<CType>,
    right: &Rc<SharedExpr>,
    k: &Rc<Todo>,
) -> Result<Rc<Use>, NoMemory>
    ensures { IfOk result (λ after. use_of after.value ≡ control.struct_left place (type_view ty.now.value) (expr_of right.now.value) (todo_of k.now.value)) }
{
    Ok(Rc::new(
        alloc,
        Use::StructLeft(place, ty.clone()?, right.clone()?, k.clone()?),
    )?)
}

/// Behind the place of the right side of an assigned struct.
pub fn struct_right(
    alloc: Global,
    place: u32,
    ty: &Rc<CType>,
    to: Value,
    k: &Rc<Todo>,
) -> Result<Rc<Use>, NoMemory>
    ensures { IfOk result (λ after. use_of after.value ≡ control.struct_right place (type_view ty.now.value) to (todo_of k.now.value)) }
{
    Ok(Rc::new(alloc, Use::StructRight(place, ty.clone()?, to, k.clone()?))?)
}

/// Behind the place of a in `a op= b`.
pub fn update_left(
    alloc: Global,
    u: &Rc<Updating>,
    right: &Rc<SharedExpr>,
    k: &Rc<Todo>,
) -> Result<Rc<Use>, NoMemory>
    ensures { IfOk result (λ after. use_of after.value ≡ control.update_left (updating_of u.now.value) (expr_of right.now.value) (todo_of k.now.value)) }
{
    Ok(Rc::new(
        alloc,
        Use::UpdateLeft(u.clone()?, right.clone()?, k.clone()?),
    )?)
}

/// Behind the value of b, where a is a local without a block.
pub fn update_local(
    alloc: Global,
    u: &Rc<Updating>,
    number: u32,
    k: &Rc<Todo>,
) -> Result<Rc<Use>, NoMemory>
    ensures { IfOk result (λ after. use_of after.value ≡ control.update_local (updating_of u.now.value) number (todo_of k.now.value)) }
{
    Ok(Rc::new(alloc, Use::UpdateLocal(u.clone()?, number, k.clone()?))?)
}

/// Behind the value of b, where a is in memory.
pub fn update_right(
    alloc: Global,
    u: &Rc<Updating>,
    at: Value,
    k: &Rc<Todo>,
) -> Result<Rc<Use>, NoMemory>
    ensures { IfOk result (λ after. use_of after.value ≡ control.update_right (updating_of u.now.value) at (todo_of k.now.value)) }
{
    Ok(Rc::new(alloc, Use::UpdateRight(u.clone()?, at, k.clone()?))?)
}

/// Behind the value of a in `a op= b`, where a is in memory.
pub fn update_read(
    alloc: Global,
    u: &Rc<Updating>,
    at: Value,
    by: Value,
    k: &Rc<Todo>,
) -> Result<Rc<Use>, NoMemory>
    ensures { IfOk result (λ after. use_of after.value ≡ control.update_read (updating_of u.now.value) at by (todo_of k.now.value)) }
{
    Ok(Rc::new(alloc, Use::UpdateRead(u.clone()?, at, by, k.clone()?))?)
}
