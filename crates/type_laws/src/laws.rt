//! Laws of typed trees, without a function of the code's.
ghost use Rattle.type_laws.specs.Grammatical.{ParsedGivesWellFormed};
ghost use Rattle.type_laws.specs.TypedSizes.{PartsAreSized};

/// The typed tree that a file of the grammar has is well formed.
pub fn well_formed()
    ensures { ParsedGivesWellFormed }
{
    c_typing::laws::well_formed();
}

/// A struct that has a member has a size, and an array that a pointer leads to has one, and so have their parts.
pub fn parts_are_sized()
    ensures { PartsAreSized }
{}
