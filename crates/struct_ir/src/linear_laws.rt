//! Laws of linear code, as contracts of functions that do nothing.

ghost use Rattle.struct_ir.specs.Lawful.{LawfulCodeShrinks};
ghost use Rattle.struct_ir.specs.ValidCode.{ValidCodeIsReached, ValidIsReached};

/// In lawful code what is left to do before a round is over or the call is left gets less.
pub fn lawful_code_shrinks()
    ensures { LawfulCodeShrinks }
{}

/// What stands at each position to which a path of valid code comes is in range: an act, a test or
/// a return that names only what its function and its program have.
pub fn reached_code_is_valid()
    ensures structured { ValidIsReached }
    ensures linear { ValidCodeIsReached }
{}
