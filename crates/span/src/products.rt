// The product of spans: its ends are the least and the greatest of the four products of ends.
ghost use Rattle.std.specs.Prelude.{◌≡◌};
ghost use Rattle.span.specs.Spans as spans;
ghost use Rattle.span.specs.Laws.{ProductLaw};

use crate::span::Span;
use kind::NumberKind;

// a × b rounded down, to c × d rounded up. (Two steps, and not `ends`: most of the time goes here, and it took a fifth longer.)
#[inline(always)]
pub fn corners<K: NumberKind>(a: K, b: K, c: K, d: K) -> Option<Span<K>>
    ensures { result ≡ spans.corners K.NumberKind.model a b c d }
{
    let lower = a.product_below(b)?;
    let upper = c.product_above(d)?;
    Some(Span { lower, upper })
}

impl<K: NumberKind> Span<K> {
    // No branch on signs, which are hard to foresee.
    #[tactic(auto, using(crate::proofs::Lawful::product_law))]
    #[inline(always)]
    pub fn product(self, other: Span<K>) -> Option<Span<K>>
        ensures value { result ≡ spans.product K.NumberKind.model self other }
        ensures narrowest { ProductLaw K.NumberKind.model self other result }
    {
        let (lower, upper) = K::product_ends(self.lower, self.upper, other.lower, other.upper)?;
        Some(Span { lower, upper })
    }

    // The product with [k], on either side.
    #[tactic(auto, using(crate::proofs::Points::scaled_left))]
    #[inline(always)]
    pub fn scaled(self, k: K) -> Option<Span<K>>
        ensures right { result ≡ spans.product K.NumberKind.model self (spans.point K.NumberKind.model k) }
        ensures left { result ≡ spans.product K.NumberKind.model (spans.point K.NumberKind.model k) self }
    {
        let (lower, upper) = K::product_ends(self.lower, self.upper, k, k)?;
        Some(Span { lower, upper })
    }
}
