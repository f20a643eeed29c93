//! What the definitions mean, as contracts of functions that do nothing.
ghost use Rattle.std.specs.Prelude.{◌≡◌, ◌↔◌, ℕ, List, Some, None};
ghost use Rattle.flat_store.specs.Flat.{HasBytes, IsFirstOutside, first_outside};

/// The first address outside is the least of an access's addresses that has no byte, and there is none where all have.
pub fn first_outside_is_the_least()
    ensures first { (bytes : List ℕ) (at n address : ℕ) → (first_outside bytes at n ≡ Some address) ↔ IsFirstOutside bytes at n address }
    ensures none { (bytes : List ℕ) (at n : ℕ) → (first_outside bytes at n ≡ None) ↔ HasBytes bytes at n }
{}
