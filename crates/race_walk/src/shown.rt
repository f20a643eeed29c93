ghost use Rattle.std.specs.Prelude.{◌≡◌, MatchOption};
ghost use Rattle.std.specs.List.{list_any};
ghost use Rattle.race_rules.specs.Turns.{Has};
ghost use Rattle.race_rules.specs.Shown.{FirstOf, ClashesOne};
ghost use Rattle.race_walk.specs.Views.{clash_test};

use race_rules::Touch;

/// Whether two touches clash.
fn clashes(a: &Touch, b: &Touch) -> bool
    ensures { result ≡ clash_test a.now b.now }
{
    a.kind.clashes(b.kind) && a.block == b.block && a.from.max(b.from) < a.to.min(b.to)
}

/// Whether a touch clashes with one of these.
fn clashes_any(a: &Touch, all: &[Touch]) -> bool
    ensures { result ≡ list_any (clash_test a.now) all.now }
{
    all.iter().any(|b| clashes(a, b))
}

/// The first touch that clashes with one of the others.
fn first_clashing(touches: &[Touch], others: &[Touch]) -> Option<Touch>
    ensures { MatchOption result (Has (ClashesOne others.now) touches.now → ⊥) (FirstOf (ClashesOne others.now) touches.now) }
{
    for touch in touches {
        if clashes_any(touch, others) {
            return Some(*touch);
        }
    }
    None
}

/// Of each of two turns the first touch that clashes with any of the other; none where none clashes.
pub fn shown(first: &[Touch], second: &[Touch]) -> Option<(Touch, Touch)>
    ensures { MatchOption result (Has (ClashesOne second.now) first.now → ⊥) (λ p. (FirstOf (ClashesOne second.now) first.now p.0) × (FirstOf (ClashesOne first.now) second.now p.1)) }
{
    let one = first_clashing(first, second)?;
    let other = first_clashing(second, first)?;
    Some((one, other))
}
