ghost use Rattle.std.specs.Prelude.{◌≤◌, map, length, slice_get, IsTrue};
ghost use Rattle.std.specs.List.{list_all};
ghost use Rattle.c_tree.specs.TypedViews.{literal_view};
ghost use Rattle.struct_ir.specs.Views.{global_view, func_view};
ghost use Rattle.struct_ir.specs.Whole.{takes_nothing, is_init_in, plain_bytes};

use crate::code::{IrFunc, IrGlobal};
use c_tree::typed::Literal;

/// Structured code of a program. By its type main is one of the functions and has no parameter,
/// each literal that a global begins with is there, and globals and literals fit the plain area.
#[derive(Drop)]
pub struct Ir {
    /// The globals, in order.
    pub globals: Vec<IrGlobal>,
    /// The string literals, in order.
    pub literals: Vec<Literal>,
    /// The functions, in order.
    pub funcs: Vec<IrFunc>,
    /// The number of main.
    pub main: u32,
    pub ghost main_takes_nothing: { IsTrue (takes_nothing (slice_get (map func_view funcs.items) main)) },
    pub ghost literals_are_there: { IsTrue (list_all (λ g. is_init_in (length (map literal_view literals.items)) g.init) (map global_view globals.items)) },
    pub ghost fits_the_plain_area: { plain_bytes (map global_view globals.items) (map literal_view literals.items) ≤ 1048576 },
}
