ghost use Rattle.std.specs.Prelude.{◌≡◌, ◌+◌, ◌<◌, ◌≤◌, ◌↔◌, IsTrue};
ghost use Rattle.std.specs.List.{All};
ghost use Rattle.std.specs.Vec.{vec_len, vec_capacity};
ghost use Rattle.sub_heaps.specs.ByPlace.{object_at, with_object};
ghost use Rattle.move_plan.specs.inner.Spans.{AreSorted, AreInOrder};

use sub_heaps::Object;

/// Puts a span behind those that start at its place or below.
pub fn put_in_order(spans: &mut Vec<Object>, new: Object)
    requires sorted { AreSorted 0 spans.old.items }
    requires room { vec_len spans.old < vec_capacity spans.old }
    ensures items { spans.new.items ≡ with_object new spans.old.items }
    ensures len { vec_len spans.new ≡ vec_len spans.old + 1 }
    ensures capacity { vec_capacity spans.old ≤ vec_capacity spans.new }
{
    // Where places rise from span to span, as in a slide, each goes behind all others.
    if end_no_higher(spans, new.at) {
        spans.push_reserved(new);
        return;
    }
    let behind = spans.partition_point(|span| span.at <= new.at);
    match spans.insert(behind, new) {
        Ok(()) => {}
        Err(_) => unreachable!(),
    }
}

// Whether the last span starts at a place or below, and so all do.
fn end_no_higher(spans: &[Object], at: u32) -> bool
    requires { AreSorted 0 spans.now }
    ensures { IsTrue result → All (λ s. s.at ≤ at) spans.now }
{
    match spans.last() {
        Some(last) => last.at <= at,
        None => true,
    }
}

/// The first span that starts at a place.
pub fn span_at(spans: &[Object], at: u32) -> Option<Object>
    requires { AreSorted 0 spans.now }
    ensures { result ≡ object_at at spans.now }
{
    let first = spans.partition_point(|span| span.at < at);
    match spans.get(first) {
        Some(span) if span.at == at => Some(*span),
        _ => None,
    }
}

/// Whether each span starts at or above the end of the one before it.
pub fn are_in_order(spans: &[Object]) -> bool
    ensures { IsTrue result ↔ AreInOrder 0 spans.now }
{
    let mut end: u64 = 0;
    for span in spans {
        if u64::from(span.at) < end {
            return false;
        }
        end = u64::from(span.at) + u64::from(span.size);
    }
    true
}
