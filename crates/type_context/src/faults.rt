//! Refusals: which of two is named, and the outcomes of two parts.
ghost use Rattle.std.specs.Prelude.{◌≡◌, Err};
ghost use Rattle.c_lex.specs.declared.refusal.CompileFault.TheVariants.{Refused};
ghost use Rattle.c_typing.specs.Faults.{number, comes_before, earlier, unless};
ghost use Rattle.type_context.specs.inner.Outcomes.{joined};
ghost use Rattle.type_context.specs.Telling.{as_fault, Says};

use c_lex::{CompileFault, Kind, Refusal};

/// The number of a kind, by which refusals at one place are ordered.
pub fn number(kind: Kind) -> u8
    ensures { result ≡ number kind }
{
    match kind {
        Kind::BadByte => 1,
        Kind::OpenLiteral => 2,
        Kind::NumberTooWide => 3,
        Kind::UnexpectedToken => 4,
        Kind::TooDeep => 5,
        Kind::UnknownName => 6,
        Kind::DoubleName => 7,
        Kind::TypeMismatch => 8,
        Kind::NotAnLvalue => 9,
        Kind::BadSize => 10,
        Kind::OutsideSubset(_) => 11,
        Kind::TooLong => 12,
        Kind::TooMany(_) => 13,
    }
}

/// Whether the first of two comes before the second: at a lesser place, or there with a lesser
/// number.
pub fn comes_before(r: Refusal, s: Refusal) -> bool
    ensures { result ≡ comes_before r s }
{
    r.place < s.place || r.place == s.place && number(r.kind) < number(s.kind)
}

/// The one of two that comes first.
#[tactic(auto, unfolding(c_typing::specs::Faults::earlier))]
pub fn earlier(r: Refusal, s: Refusal) -> Refusal
    ensures { result ≡ earlier r s }
{
    if comes_before(s, r) { s } else { r }
}

/// Both parts of a node; where both are refused, the refusal that comes first.
#[tactic(auto, unfolding(crate::specs::inner::Outcomes::joined))]
pub fn both<A: Drop, B: Drop>(
    a: Result<A, CompileFault>,
    b: Result<B, CompileFault>,
) -> Result<(A, B), CompileFault>
    ensures { result ≡ joined a b }
{
    match (a, b) {
        (Ok(a), Ok(b)) => Ok((a, b)),
        (Ok(_), Err(fault)) => Err(fault),
        (Err(fault), Ok(_)) => Err(fault),
        (Err(CompileFault::Refused(r)), Err(CompileFault::Refused(s))) => {
            Err(CompileFault::Refused(earlier(r, s)))
        }
        (Err(_), Err(_)) => Err(CompileFault::NoMemory),
    }
}

/// Both parts, where neither takes memory.
#[tactic(auto, unfolding(crate::specs::inner::Outcomes::joined))]
pub fn both_or_refusal<A: Drop, B: Drop>(
    a: Result<A, Refusal>,
    b: Result<B, Refusal>,
) -> Result<(A, B), Refusal>
    ensures { as_fault result ≡ joined (as_fault a) (as_fault b) }
{
    match (a, b) {
        (Ok(a), Ok(b)) => Ok((a, b)),
        (Ok(_), Err(r)) => Err(r),
        (Err(r), Ok(_)) => Err(r),
        (Err(r), Err(s)) => Err(earlier(r, s)),
    }
}

/// A refusal at a place.
pub fn refused<T>(place: u32, kind: Kind) -> Result<T, CompileFault>
    ensures { result ≡ Err (Refused (record { place = place; kind = kind })) }
{
    Err(CompileFault::Refused(Refusal { place, kind }))
}

/// Nothing is wrong, or one thing is.
pub fn unless(place: u32, kind: Kind, fine: bool) -> Result<(), Refusal>
    ensures { Says (λ _. tt) result (unless place kind fine) }
{
    if fine {
        Ok(())
    } else {
        Err(Refusal { place, kind })
    }
}

/// What a function that takes no memory returned, where memory may run out too.
pub fn as_fault<T>(r: Result<T, Refusal>) -> Result<T, CompileFault>
    ensures { result ≡ as_fault r }
{
    match r {
        Ok(x) => Ok(x),
        Err(r) => Err(CompileFault::Refused(r)),
    }
}
