// The magnitude and the square of a span.
ghost use Rattle.std.specs.Prelude.{◌≡◌};
ghost use Rattle.span.specs.Spans as spans;
ghost use Rattle.span.specs.Laws.{SquareLaw, MagnitudeLaw};

use crate::ends::{from_zero, greater_mark, to_zero};
use crate::products::corners;
use crate::span::Span;
use kind::NumberKind;

impl<K: NumberKind> Span<K> {
    pub fn magnitude(self) -> Span<K>
        ensures value { result ≡ spans.magnitude K.NumberKind.model self }
        ensures narrowest { MagnitudeLaw K.NumberKind.model self result }
    {
        if from_zero(self.lower) {
            self
        } else if to_zero(self.upper) {
            self.negated()
        } else {
            Span {
                lower: K::zero(),
                upper: greater_mark(self.lower.negated(), self.upper),
            }
        }
    }

    // The square of the magnitude.
    pub fn square(self) -> Option<Span<K>>
        ensures value { result ≡ spans.square K.NumberKind.model self }
        ensures narrowest { SquareLaw K.NumberKind.model self result }
    {
        let g = self.magnitude();
        corners(g.lower, g.lower, g.upper, g.upper)
    }
}
