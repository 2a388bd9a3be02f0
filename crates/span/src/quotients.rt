// The quotient of spans, by the signs of the divisor and of the ends.
ghost use Rattle.std.specs.Prelude.{◌≡◌};
ghost use Rattle.span.specs.Spans as spans;
ghost use Rattle.span.specs.Laws.{QuotientLaw};

use crate::ends::{from_zero, to_zero};
use crate::span::{Span, ends};
use kind::NumberKind;

// a / b rounded down, to c / d rounded up. (One line by `ends`. Products have their own `corners`: one function
// for both, with the operation as a closure, would be longer.)
fn ratios<K: NumberKind>(a: K, b: K, c: K, d: K) -> Option<Span<K>>
    ensures { result ≡ spans.ratios K.NumberKind.model a b c d }
{
    ends(a.quotient_below(b), c.quotient_above(d))
}

// divisors above 0 (the mirror image below is no shorter by negated spans)
fn quotient_up<K: NumberKind>(s: Span<K>, t: Span<K>) -> Option<Span<K>>
    ensures { result ≡ spans.quotient_up K.NumberKind.model s t }
{
    let low = if from_zero(s.lower) { t.upper } else { t.lower };
    let high = if to_zero(s.upper) { t.upper } else { t.lower };
    ratios(s.lower, low, s.upper, high)
}

// divisors below 0
fn quotient_down<K: NumberKind>(s: Span<K>, t: Span<K>) -> Option<Span<K>>
    ensures { result ≡ spans.quotient_down K.NumberKind.model s t }
{
    let low = if to_zero(s.upper) { t.lower } else { t.upper };
    let high = if from_zero(s.lower) { t.lower } else { t.upper };
    ratios(s.upper, low, s.lower, high)
}

impl<K: NumberKind> Span<K> {
    // Absent also where the divisor holds 0.
    pub fn quotient(self, other: Span<K>) -> Option<Span<K>>
        ensures value { result ≡ spans.quotient K.NumberKind.model self other }
        ensures narrowest { QuotientLaw K.NumberKind.model self other result }
    {
        if !to_zero(other.lower) {
            quotient_up(self, other)
        } else if from_zero(other.upper) {
            None
        } else {
            quotient_down(self, other)
        }
    }
}
