//! What stays the same in a function, and how objects are reached.

ghost use Rattle.std.specs.Prelude.{◌≡◌, IfOk, Some};
ghost use Rattle.c_tree.specs.TypedViews.{type_view, expr_view, expr_node_view};
ghost use Rattle.struct_ir.specs.Views.{place_view};
ghost use Rattle.lower_forms.specs.Forms.{home, member_reach, behind, reached, register_if, register_in, register_of, pointer_register, direct_if, indexed_if, pointed, own_register};
ghost use Rattle.lower_expressions.specs.FrameViews.{frame_view, reach_view};

pub use crate::homes::{Frame, Reach};
use crate::nodes::after;
use crate::types::is_pointer;
use ak_words::NoMemory;
use c_meaning::types::element_size;
use c_tree::typed::{CType, Expr, ExprNode};
use struct_ir::Place;

/// The place of an access to what the pointer in a register points to.
pub fn at_temp(t: u32) -> Place
    ensures { place_view result ≡ Rattle.lower_forms.specs.Forms.at_temp t }
{
    Place {
        base: t,
        index: None,
        scale: 0,
        offset: 0,
        slot: None,
    }
}

impl Reach {
    ghost use Rattle.std.specs.Prelude.{◌≡◌, IfOk};
    ghost use Rattle.struct_ir.specs.Views.{place_view};
    ghost use Rattle.lower_forms.specs.Forms.{member_reach, behind, reached};
    ghost use Rattle.lower_expressions.specs.FrameViews.{reach_view};

    /// The place of an access to an object, to which the pointer is in the register `t`.
    pub fn place(self, t: u32) -> Result<Place, NoMemory>
        ensures { IfOk result (λ p. place_view p ≡ reached (reach_view self) t) }
    {
        match self {
            Reach::Found => Ok(at_temp(t)),
            Reach::Direct { base, offset } => Ok(Place {
                base,
                index: None,
                scale: 0,
                offset: u64::from(offset),
                slot: None,
            }),
            Reach::Indexed {
                base,
                scale,
                offset,
            } => Ok(Place {
                base,
                index: Some(after(t)?),
                scale,
                offset: u64::from(offset),
                slot: None,
            }),
        }
    }

    /// The first register that is free then.
    pub fn behind(self, t: u32) -> Result<u32, NoMemory>
        ensures { IfOk result (λ u. u ≡ behind (reach_view self) t) }
    {
        match self {
            Reach::Found | Reach::Direct { .. } => after(t),
            Reach::Indexed { .. } => after(after(t)?),
        }
    }

    /// How a member at this offset is reached.
    pub fn member(self, offset: u32) -> Reach
        ensures { reach_view result ≡ member_reach offset (reach_view self) }
    {
        match self {
            Reach::Direct { base, offset: 0 } => Reach::Direct { base, offset },
            Reach::Indexed {
                base,
                scale,
                offset: 0,
            } => Reach::Indexed {
                base,
                scale,
                offset,
            },
            _ => Reach::Found,
        }
    }
}

impl<'a, 'b, 'c> Frame<'a, 'b, 'c> {
    ghost use Rattle.std.specs.Prelude.{◌≡◌, IfOk};
    ghost use Rattle.c_tree.specs.TypedViews.{type_view, expr_view, expr_node_view};
    ghost use Rattle.lower_forms.specs.Forms.{home, register_in, register_of, pointed, own_register};
    ghost use Rattle.lower_expressions.specs.FrameViews.{frame_view, reach_view};

    /// The stack object of a local, or none where it is kept in a register.
    pub fn home(&self, number: u32) -> Option<u32>
        ensures { result ≡ home (frame_view self.now) number }
    {
        match self.homes.get(number as usize) {
            Some(home) => *home,
            None => None,
        }
    }

    /// The register of the local that this is, if it is one in a register.
    pub fn own_register(&self, node: &ExprNode) -> Option<u32>
        ensures { result ≡ own_register (frame_view self.now) (expr_node_view node.now) }
    {
        match node {
            ExprNode::Local(number) => register_if(*number, self.home(*number)),
            _ => None,
        }
    }

    /// What a pointer points to.
    pub fn pointed(&self, e: &Expr) -> Result<Reach, NoMemory>
        ensures { IfOk result (λ r. reach_view r ≡ pointed (frame_view self.now) (expr_view e.now)) }
    {
        match &e.node {
            ExprNode::PtrAdd(a, _) => {
                let scale = element_size(&e.ty, self.structs)?;
                indexed_if(scale, pointer_register(a, self))
            }
            node => Ok(direct_if(register_in(node, self, &e.ty))),
        }
    }
}

fn register_if(number: u32, home: Option<u32>) -> Option<u32>
    ensures { result ≡ register_if number home }
{
    match home {
        None => Some(number),
        Some(_) => None,
    }
}

// The register of a pointer that stands first in a sum; a number has none there.
fn pointer_register(e: &Expr, f: &Frame) -> Option<u32>
    ensures { result ≡ pointer_register (frame_view f.now) (expr_view e.now) }
{
    if is_pointer(&e.ty) {
        register_of(e, f)
    } else {
        None
    }
}

fn direct_if(base: Option<u32>) -> Reach
    ensures { reach_view result ≡ direct_if base }
{
    match base {
        None => Reach::Found,
        Some(base) => Reach::Direct { base, offset: 0 },
    }
}

fn indexed_if(scale: u32, base: Option<u32>) -> Result<Reach, NoMemory>
    ensures { IfOk result (λ r. reach_view r ≡ indexed_if scale base) }
{
    match base {
        None => Ok(Reach::Found),
        Some(base) => Ok(Reach::Indexed {
            base,
            scale,
            offset: 0,
        }),
    }
}

/// The register of the local that an expression is, if it is one in a register; a conversion of a
/// pointer changes nothing.
#[cycle(registers)]
fn register_of(e: &Expr, f: &Frame) -> Option<u32>
    ensures { result ≡ register_of (frame_view f.now) (expr_view e.now) }
{
    register_in(&e.node, f, &e.ty)
}

#[cycle(registers)]
fn register_in(node: &ExprNode, f: &Frame, ty: &CType) -> Option<u32>
    ensures { result ≡ register_in (frame_view f.now) (type_view ty.now) (expr_node_view node.now) }
{
    match node {
        ExprNode::Local(number) => register_if(*number, f.home(*number)),
        ExprNode::Convert(e) => {
            if is_pointer(ty) {
                register_of(e, f)
            } else {
                None
            }
        }
        _ => None,
    }
}
