//! Values in boxes and lists.

ghost use Rattle.std.specs.Prelude.{[], ◌∷◌};
ghost use Rattle.parse_tokens.specs.inner.Moves.{Makes, Puts};

use parse_tokens::parser::Stop;
use std::alloc::Global;

/// A value in a box.
pub fn boxed<T: Drop>(alloc: Global, value: T) -> Result<Box<T>, Stop>
    ensures { Makes (λ b. b.value) value result }
{
    Ok(Box::new(alloc, value)?)
}

/// A list of one value.
pub fn one<T: Drop>(alloc: Global, value: T) -> Result<Vec<T>, Stop>
    ensures { Makes (λ all. all.items) (value ∷ []) result }
{
    let mut all = Vec::new(alloc);
    all.push(value)?;
    Ok(all)
}

/// One more value at the end of a list.
pub fn put<T: Drop>(all: &mut Vec<T>, value: T) -> Result<(), Stop>
    ensures { Puts value all.old.items all.new.items result }
{
    all.push(value)?;
    Ok(())
}

/// One more value at the end of a list, which was in a box.
pub fn put_inner<T: Drop>(all: &mut Vec<T>, value: Box<T>) -> Result<(), Stop>
    ensures { Puts value.value all.old.items all.new.items result }
{
    put(all, Box::into_inner(value))
}
