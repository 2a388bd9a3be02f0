// Ends of spans: comparing, choosing and negating them. Nothing here rounds.
ghost use Rattle.std.specs.Prelude.{◌≡◌};
ghost use Rattle.span.specs.Spans as spans;

use crate::span::Span;
use kind::NumberKind;

// Each of these is a line, so none is derived from its mirror image.
#[inline(always)]
pub fn lesser_mark<K: NumberKind>(a: K, b: K) -> K
    ensures { result ≡ spans.lesser_mark K.NumberKind.model a b }
{
    if a.at_most(b) { a } else { b }
}

#[inline(always)]
pub fn greater_mark<K: NumberKind>(a: K, b: K) -> K
    ensures { result ≡ spans.greater_mark K.NumberKind.model a b }
{
    if a.at_most(b) { b } else { a }
}

#[inline(always)]
pub fn from_zero<K: NumberKind>(a: K) -> bool
    ensures { result ≡ spans.from_zero K.NumberKind.model a }
{
    K::zero().at_most(a)
}

#[inline(always)]
pub fn to_zero<K: NumberKind>(a: K) -> bool
    ensures { result ≡ spans.to_zero K.NumberKind.model a }
{
    a.at_most(K::zero())
}

// (A kind has no test for 0 alone.)
#[inline(always)]
fn is_nought<K: NumberKind>(a: K) -> bool
    ensures { result ≡ spans.is_nought K.NumberKind.model a }
{
    to_zero(a) && from_zero(a)
}

impl<K: NumberKind> Span<K> {
    // [v]
    #[inline(always)]
    pub fn point(v: K) -> Span<K>
        ensures { result ≡ spans.point K.NumberKind.model v }
    {
        Span { lower: v, upper: v }
    }

    // Whether 0 lies in the span, an end included.
    #[inline(always)]
    pub fn holds_zero(self) -> bool
        ensures { result ≡ spans.holds_zero K.NumberKind.model self }
    {
        to_zero(self.lower) && from_zero(self.upper)
    }

    // Whether the span is [0].
    #[inline(always)]
    pub fn is_zero(self) -> bool
        ensures { result ≡ spans.is_zero K.NumberKind.model self }
    {
        is_nought(self.lower) && is_nought(self.upper)
    }

    // Whether the span is [1].
    #[inline(always)]
    pub fn is_one(self) -> bool
        ensures { result ≡ spans.is_one K.NumberKind.model self }
    {
        K::one().at_most(self.lower)
            && self.upper.at_most(K::one())
            && self.lower.at_most(K::one())
            && K::one().at_most(self.upper)
    }

    // The mark k, where the span is [k].
    #[inline(always)]
    pub fn sole(self) -> Option<K>
        ensures { result ≡ spans.sole K.NumberKind.model self }
    {
        if self.upper.at_most(self.lower) && self.lower.at_most(self.upper) {
            Some(self.lower)
        } else {
            None
        }
    }

    // Whether the lower end is not below the other's upper end.
    #[inline(always)]
    pub fn clears(self, other: Span<K>) -> bool
        ensures { result ≡ spans.clears K.NumberKind.model self other }
    {
        other.upper.at_most(self.lower)
    }

    // The ends in order, as the product with [1] has them.
    #[inline(always)]
    pub fn sorted(self) -> Span<K>
        ensures { result ≡ spans.sorted K.NumberKind.model self }
    {
        Span {
            lower: lesser_mark(self.lower, self.upper),
            upper: greater_mark(self.lower, self.upper),
        }
    }

    #[inline(always)]
    pub fn negated(self) -> Span<K>
        ensures { result ≡ spans.negated K.NumberKind.model self }
    {
        Span {
            lower: self.upper.negated(),
            upper: self.lower.negated(),
        }
    }

    // Each end the greater of the two.
    pub fn greater(self, other: Span<K>) -> Span<K>
        ensures { result ≡ spans.greater K.NumberKind.model self other }
    {
        Span {
            lower: greater_mark(self.lower, other.lower),
            upper: greater_mark(self.upper, other.upper),
        }
    }

    // Each end the lesser of the two. (A closure for the choice of an end would be longer than both.)
    pub fn lesser(self, other: Span<K>) -> Span<K>
        ensures { result ≡ spans.lesser K.NumberKind.model self other }
    {
        Span {
            lower: lesser_mark(self.lower, other.lower),
            upper: lesser_mark(self.upper, other.upper),
        }
    }
}
