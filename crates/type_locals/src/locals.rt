//! Which locals of a function are in memory, and the function once its whole body is known.
ghost use Rattle.std.specs.Prelude.{◌≡◌, ◌||◌, ◌++◌, IfOk, OnOk, map, drop, length};
ghost use Rattle.c_tree.specs.Typed.{Ty, Stmts, more_stmts, stmts_of};
ghost use Rattle.c_tree.specs.TypedViews.{type_view, stmt_view, func_view};
ghost use Rattle.c_typing.specs.Numbering.{passed_type, is_in, addressed_params, is_block, locals_from, copies, func_of, renumbered_stmts};
ghost use Rattle.type_locals.specs.LocalViews.{param_view, params_view};
ghost use Rattle.type_locals.specs.inner.Marking.{marked};
ghost use Rattle.type_locals.specs.inner.Numbers.{further_view, furthers_view, param_local, further_local, locals_view, table_from, copy_of, followed, new_number, func};

use crate::boxes::put;
use crate::marks::Marks;
use crate::numbering::Numbers;
use c_tree::copies::copy_type;
use c_tree::typed::{CType, Expr, ExprNode, Func, Local, Stmt, StmtNode};
use std::alloc::{AllocError, Global};

/// A parameter of a function: the place of its name, and the type with which it is declared.
#[derive(Debug, Drop)]
pub struct Param {
    pub place: u32,
    pub ty: CType,
}

/// A parameter that is in memory, since it is atomic or its address is taken, and its number: it means a further local.
#[derive(Drop)]
pub struct Further<'a> {
    pub number: u32,
    pub param: &'a Param,
}

// A length as a number.
fn number(length: usize) -> Result<u32, AllocError>
    ensures { IfOk result (λ n. n ≡ length) }
{
    u32::try_from(length).map_err(|_| AllocError)
}

// Whether a parameter of this number is in memory: it is atomic, or its address is taken.
fn is_further(param: &Param, number: u32, addressed: &Marks) -> bool
    ensures { result ≡ (is_block (param_view param.now).ty || is_in number (marked addressed.now)) }
{
    is_block(&param.ty) || addressed.has(number)
}

// The parameters that are in memory.
fn further_params<'a>(
    alloc: Global,
    params: &'a [Param],
    addressed: &Marks,
) -> Result<Vec<Further<'a>>, AllocError>
    ensures { IfOk result (λ v. furthers_view v.items ≡ addressed_params 0 (params_view params.now) (marked addressed.now)) }
{
    let mut all = Vec::new(alloc);
    for (k, param) in params.iter().enumerate() {
        let number = number(k)?;
        if is_further(param, number, addressed) {
            all.push(Further { number, param })?;
        }
    }
    Ok(all)
}

// The numbers that the parameters get in the body: one that is in memory is a further local.
fn table(alloc: Global, params: &[Param], addressed: &Marks) -> Result<Vec<u32>, AllocError>
    ensures { IfOk result (λ v. v.items ≡ table_from 0 (length params.now) (params_view params.now) (marked addressed.now)) }
{
    let mut all = Vec::new(alloc);
    let mut next = number(params.len())?;
    for (k, param) in params.iter().enumerate() {
        let number = number(k)?;
        if is_further(param, number, addressed) {
            all.push(next)?;
            next = next.checked_add(1).ok_or(AllocError)?;
        } else {
            all.push(number)?;
        }
    }
    Ok(all)
}

// Whether an object of the type is in memory: an array, a struct, a mutex or an atomic number is.
fn is_block(t: &CType) -> bool
    ensures { result ≡ is_block (type_view t.now) }
{
    matches!(
        t,
        CType::Array(_, _) | CType::Struct(_) | CType::Mutex | CType::Atomic(_)
    )
}

/// The type that a parameter's argument has: of an atomic number the number's.
pub fn passed_type(alloc: Global, p: &Param) -> Result<CType, AllocError>
    ensures { IfOk result (λ t. type_view t ≡ passed_type (param_view p.now)) }
{
    match &p.ty {
        CType::Atomic(t) => Ok(CType::Int(*t)),
        t => copy_type(alloc, t),
    }
}

// The parameters as locals.
fn params_of(alloc: Global, params: &[Param]) -> Result<Vec<Local>, AllocError>
    ensures { IfOk result (λ v. locals_view v.items ≡ map param_local (params_view params.now)) }
{
    let mut all = Vec::new(alloc);
    'params: for p in params {
        let ty = passed_type(alloc, p)?;
        all.push(Local {
            ty,
            in_memory: false,
        })?;
    }
    Ok(all)
}

// The further locals.
fn further_of(alloc: Global, further: &[Further<'_>]) -> Result<Vec<Local>, AllocError>
    ensures { IfOk result (λ v. locals_view v.items ≡ map further_local (furthers_view further.now)) }
{
    let mut all = Vec::new(alloc);
    'further: for x in further {
        let ty = copy_type(alloc, &x.param.ty)?;
        all.push(Local {
            ty,
            in_memory: true,
        })?;
    }
    Ok(all)
}

// The locals of these types, from a number on.
fn others_of(
    alloc: Global,
    from: usize,
    types: &[CType],
    addressed: &Marks,
) -> Result<Vec<Local>, AllocError>
    ensures { IfOk result (λ v. locals_view v.items ≡ locals_from from (marked addressed.now) (map type_view types.now)) }
{
    let mut all = Vec::new(alloc);
    let mut n = number(from)?;
    'types: for t in types {
        let ty = copy_type(alloc, t)?;
        let in_memory = is_block(t) || addressed.has(n);
        all.push(Local { ty, in_memory })?;
        n = n.checked_add(1).ok_or(AllocError)?;
    }
    Ok(all)
}

// The types behind those of so many parameters.
fn behind(params: usize, types: &[CType]) -> &[CType]
    ensures { result.now ≡ drop params types.now }
{
    if params <= types.len() {
        &types[params..]
    } else {
        &[]
    }
}

// All locals: the parameters, the further ones and the others.
fn locals_of(
    alloc: Global,
    params: &[Param],
    further: &[Further<'_>],
    types: &[CType],
    addressed: &Marks,
) -> Result<Vec<Local>, AllocError>
    ensures { IfOk result (λ v. locals_view v.items ≡ map param_local (params_view params.now) ++ map further_local (furthers_view further.now) ++ locals_from (length params.now) (marked addressed.now) (drop (length params.now) (map type_view types.now))) }
{
    let mut all = params_of(alloc, params)?;
    let mut more = further_of(alloc, further)?;
    let mut others = others_of(alloc, params.len(), behind(params.len(), types), addressed)?;
    all.append(&mut more)?;
    all.append(&mut others)?;
    Ok(all)
}

// The declaration of a further local, from its parameter, at the place of that one's name, behind others.
fn copied(
    alloc: Global,
    number: u32,
    x: &Further<'_>,
    all: &mut Vec<Stmt>,
) -> Result<(), AllocError>
    ensures { OnOk result ((body : Stmts) → followed all.new.items body ≡ followed all.old.items (more_stmts (copy_of number (further_view x.now)) body)) }
{
    let value = Expr {
        place: x.param.place,
        ty: passed_type(alloc, x.param)?,
        node: ExprNode::Local(x.number),
    };
    let declared = Stmt {
        place: x.param.place,
        node: StmtNode::Declare(number, Some(value)),
    };
    put(all, declared)
}

// The declarations of the further locals, from a number on, behind those that are there.
fn copies(
    alloc: Global,
    params: u32,
    further: &[Further<'_>],
    all: &mut Vec<Stmt>,
) -> Result<(), AllocError>
    ensures { OnOk result ((body : Stmts) → followed all.new.items body ≡ followed all.old.items (copies params 0 (furthers_view further.now) body)) }
{
    for (i, x) in further.iter().enumerate() {
        let number = params.checked_add(number(i)?).ok_or(AllocError)?;
        copied(alloc, number, x, all)?;
    }
    Ok(())
}

// The body, its locals with these numbers, behind the declarations of the further locals.
fn body_of(
    alloc: Global,
    params: u32,
    further: &[Further<'_>],
    numbers: &Numbers,
    body: &mut Vec<Stmt>,
) -> Result<(), AllocError>
    ensures { OnOk result (stmts_of (map stmt_view body.new.items) ≡ copies params 0 (furthers_view further.now) (renumbered_stmts (new_number numbers.now) (stmts_of (map stmt_view body.old.items)))) }
{
    numbers.statements(body)?;
    if further.is_empty() {
        return Ok(());
    }
    let mut all = Vec::new(alloc);
    copies(alloc, params, further, &mut all)?;
    all.append(body)?;
    *body = all;
    Ok(())
}

// The numbers that the locals get, where these parameters have their address taken.
fn numbers_of(
    alloc: Global,
    params: &[Param],
    further: &[Further<'_>],
    addressed: &Marks,
) -> Result<Numbers, AllocError>
    ensures { IfOk result (λ n. (n.params.items ≡ table_from 0 (length params.now) (params_view params.now) (marked addressed.now)) × (n.further ≡ length further.now)) }
{
    let further = number(further.len())?;
    Ok(Numbers {
        params: table(alloc, params, addressed)?,
        further,
    })
}

// The locals, and the body's numbers for them, where these have their address taken.
fn settled_by(
    alloc: Global,
    params: &[Param],
    types: &[CType],
    addressed: &Marks,
    body: &mut Vec<Stmt>,
) -> Result<Vec<Local>, AllocError>
    ensures { IfOk result (λ v. (t : Ty) → func (length params.now) (locals_view v.items) t (stmts_of (map stmt_view body.new.items)) ≡ func_of (params_view params.now) (map type_view types.now) (marked addressed.now) t (stmts_of (map stmt_view body.old.items))) }
{
    let count = number(params.len())?;
    let further = further_params(alloc, params, addressed)?;
    let numbers = numbers_of(alloc, params, &further, addressed)?;
    body_of(alloc, count, &further, &numbers, body)?;
    locals_of(alloc, params, &further, types, addressed)
}

// The locals, and the body's numbers for them.
fn settled(
    alloc: Global,
    params: &[Param],
    types: &[CType],
    addressed: &[u32],
    body: &mut Vec<Stmt>,
) -> Result<Vec<Local>, AllocError>
    ensures { IfOk result (λ v. (t : Ty) → func (length params.now) (locals_view v.items) t (stmts_of (map stmt_view body.new.items)) ≡ func_of (params_view params.now) (map type_view types.now) addressed.now t (stmts_of (map stmt_view body.old.items))) }
{
    let addressed = Marks::of(alloc, addressed)?;
    settled_by(alloc, params, types, &addressed, body)
}

/// A function of these parameters, whose locals have these types, the parameters' first, and whose
/// address is taken of these (C11 6.9.1).
pub fn func_of(
    alloc: Global,
    params: &[Param],
    types: &[CType],
    addressed: &[u32],
    returned: CType,
    mut body: Vec<Stmt>,
) -> Result<Func, AllocError>
    ensures { IfOk result (λ f. func_view f ≡ func_of (params_view params.now) (map type_view types.now) addressed.now (type_view returned) (stmts_of (map stmt_view body.items))) }
{
    let count = number(params.len())?;
    let locals = settled(alloc, params, types, addressed, &mut body)?;
    Ok(Func {
        params: count,
        locals,
        result: returned,
        body,
    })
}
