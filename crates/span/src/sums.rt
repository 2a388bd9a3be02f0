// Sums and differences of spans.
ghost use Rattle.std.specs.Prelude.{◌≡◌};
ghost use Rattle.span.specs.Spans as spans;
ghost use Rattle.span.specs.Laws.{SumLaw, DifferenceLaw};

use crate::span::{Span, ends};
use kind::NumberKind;

impl<K: NumberKind> Span<K> {
    #[tactic(auto, using(crate::proofs::Lawful::sum_law))]
    #[inline(always)]
    pub fn sum(self, other: Span<K>) -> Option<Span<K>>
        ensures value { result ≡ spans.sum K.NumberKind.model self other }
        ensures narrowest { SumLaw K.NumberKind.model self other result }
    {
        ends(
            self.lower.sum_below(other.lower),
            self.upper.sum_above(other.upper),
        )
    }

    // The sum with the negative.
    #[tactic(auto, using(crate::proofs::Lawful::difference_law))]
    #[inline(always)]
    pub fn difference(self, other: Span<K>) -> Option<Span<K>>
        ensures value { result ≡ spans.difference K.NumberKind.model self other }
        ensures narrowest { DifferenceLaw K.NumberKind.model self other result }
    {
        self.sum(other.negated())
    }
}
