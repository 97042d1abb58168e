//! Where values stand.

ghost use Rattle.std.specs.Prelude.{◌≡◌};
ghost use Rattle.source_ways.specs.Spans as spec;

use aen_base::Span;

/// The span from one byte up to another.
pub fn from_to(lo: u32, hi: u32) -> Span
    ensures { result ≡ spec.from_to lo hi }
{
    Span { lo, hi }
}

/// The extent of both, one after the other.
pub fn join(a: Option<Span>, b: Option<Span>) -> Option<Span>
    ensures { result ≡ spec.join a b }
{
    let Some(first) = a else {
        return b;
    };
    let Some(last) = b else {
        return a;
    };
    Some(from_to(first.lo, last.hi))
}

/// The span of an extent; of none, the empty one at the beginning.
pub fn span_of(extent: Option<Span>) -> Span
    ensures { result ≡ spec.span_of extent }
{
    match extent {
        Some(span) => span,
        None => from_to(0, 0),
    }
}

/// Whether two spans are the same.
pub fn same_span(a: Span, b: Span) -> bool
    ensures { result ≡ spec.same_span a b }
{
    a.lo == b.lo && a.hi == b.hi
}
