//! Sizes of types, and how a struct's members are laid out (C11 6.2.5, 6.7.2.1).
ghost use Rattle.std.specs.Prelude.{◌≡◌, ◌∷◌, [], ◌^◌, ◌≤◌, OnOk, IfOk, IfErr, IfSome, IfNone, map};
ghost use Rattle.c_lex.specs.declared.refusal.CompileFault.TheVariants.{NoMemory};
ghost use Rattle.c_tree.specs.TypedViews.{type_view, layout_view};
ghost use Rattle.c_tree.specs.TypedLayout as layouts;
ghost use Rattle.c_tree.specs.TypedLayout.{size_in, align_in, end_from, offsets_from, laid_out};
ghost use Rattle.c_typing.specs.Types.{is_small};

use c_lex::CompileFault;
use c_tree::typed::{CType, Layout};
use std::alloc::Global;

/// The size of the greatest object.
pub const GREATEST_OBJECT: u64 = 16_777_216;

/// The size of a type in bytes, unless that is 2^64 or more.
pub fn size_in(structs: &[Layout], t: &CType) -> Option<u64>
    ensures size { IfSome result (λ n. n ≡ size_in (map layout_view structs.now) (type_view t.now)) }
    ensures too_great { IfNone result (2 ^ 64 ≤ size_in (map layout_view structs.now) (type_view t.now)) }
{
    match t {
        CType::Void | CType::Array(_, 0) => Some(0),
        CType::Int(t) | CType::Atomic(t) => Some(u64::from(t.bits / 8)),
        CType::Mutex | CType::Pointer(_) => Some(8),
        CType::Array(element, n) => size_in(structs, element)?.checked_mul(u64::from(*n)),
        CType::Struct(n) => match structs.get(*n as usize) {
            Some(layout) => Some(u64::from(layout.size)),
            None => Some(0),
        },
    }
}

/// Whether it takes at most the greatest object's size.
pub fn is_small(structs: &[Layout], t: &CType) -> bool
    ensures { result ≡ is_small (map layout_view structs.now) (type_view t.now) }
{
    match size_in(structs, t) {
        Some(size) => size <= GREATEST_OBJECT,
        None => false,
    }
}

/// The alignment of a type in bytes.
fn align_in(structs: &[Layout], t: &CType) -> u32
    ensures { result ≡ align_in (map layout_view structs.now) (type_view t.now) }
{
    match t {
        CType::Void => 1,
        CType::Int(t) | CType::Atomic(t) => u32::from(t.bits / 8),
        CType::Mutex | CType::Pointer(_) => 8,
        CType::Array(element, _) => align_in(structs, element),
        CType::Struct(n) => match structs.get(*n as usize) {
            Some(layout) => layout.align,
            None => 1,
        },
    }
}

// The next multiple of an alignment, from n on.
fn rounded_up(n: u64, align: u32) -> Result<u64, CompileFault>
    ensures rounded { IfOk result (λ r. r ≡ layouts.rounded_up n align) }
    ensures memory { IfErr result (λ e. e ≡ NoMemory) }
{
    let align = u64::from(align);
    if align == 0 {
        return Ok(0);
    }
    let up = n.checked_add(align - 1).ok_or(CompileFault::NoMemory)?;
    Ok(up / align * align)
}

// Where a member ends that is laid from n on.
fn end_behind(structs: &[Layout], n: u64, t: &CType) -> Result<u64, CompileFault>
    ensures ends { IfOk result (λ r. r ≡ end_from (map layout_view structs.now) n (type_view t.now ∷ [])) }
    ensures memory { IfErr result (λ e. e ≡ NoMemory) }
{
    let start = rounded_up(n, align_in(structs, t))?;
    let size = size_in(structs, t).ok_or(CompileFault::NoMemory)?;
    start.checked_add(size).ok_or(CompileFault::NoMemory)
}

// Where the last of these members ends.
fn end_of(structs: &[Layout], types: &[CType]) -> Result<u64, CompileFault>
    ensures ends { IfOk result (λ r. r ≡ end_from (map layout_view structs.now) 0 (map type_view types.now)) }
    ensures memory { IfErr result (λ e. e ≡ NoMemory) }
{
    let mut end = 0;
    'members: for t in types {
        end = end_behind(structs, end, t)?;
    }
    Ok(end)
}

// The greatest alignment of these members.
#[tactic(auto, using(crate::proofs::Aligning::at_least_one))]
fn greatest_align(structs: &[Layout], types: &[CType]) -> u32
    ensures { result ≡ layouts.greatest_align (map layout_view structs.now) (map type_view types.now) }
{
    let mut greatest = 1;
    'members: for t in types {
        greatest = greatest.max(align_in(structs, t));
    }
    greatest
}

// Where each of these members begins.
fn offsets_of(alloc: Global, structs: &[Layout], types: &[CType]) -> Result<Vec<u32>, CompileFault>
    ensures offsets { IfOk result (λ all. all.items ≡ offsets_from (map layout_view structs.now) 0 (map type_view types.now)) }
    ensures memory { IfErr result (λ e. e ≡ NoMemory) }
{
    let mut offsets = Vec::new(alloc);
    let mut end = 0;
    'members: for t in types {
        let start = rounded_up(end, align_in(structs, t))?;
        offsets.push(fitting(start)?)?;
        end = end_behind(structs, end, t)?;
    }
    Ok(offsets)
}

// A number of 32 bits.
fn fitting(n: u64) -> Result<u32, CompileFault>
    ensures same { IfOk result (λ r. r ≡ n) }
    ensures memory { IfErr result (λ e. e ≡ NoMemory) }
{
    u32::try_from(n).map_err(|_| CompileFault::NoMemory)
}

/// The size of a struct with these members.
pub fn struct_size(structs: &[Layout], types: &[CType]) -> Result<u64, CompileFault>
    ensures size { IfOk result (λ r. r ≡ (laid_out (map layout_view structs.now) (map type_view types.now)).size) }
    ensures memory { IfErr result (λ e. e ≡ NoMemory) }
{
    rounded_up(end_of(structs, types)?, greatest_align(structs, types))
}

/// A struct with these members.
pub fn lay_out(alloc: Global, structs: &[Layout], types: Vec<CType>) -> Result<Layout, CompileFault>
    ensures laid { IfOk result (λ r. layout_view r ≡ laid_out (map layout_view structs.now) (map type_view types.items)) }
    ensures memory { IfErr result (λ e. e ≡ NoMemory) }
{
    Ok(Layout {
        offsets: offsets_of(alloc, structs, &types)?,
        size: fitting(struct_size(structs, &types)?)?,
        align: greatest_align(structs, &types),
        types,
    })
}
