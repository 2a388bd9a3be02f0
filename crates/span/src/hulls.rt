// The hull of two spans, and what lies in both. (The one takes the outer ends and the other the inner: each is four lines, and a
// closure for the choice of an end would be longer.)
ghost use Rattle.std.specs.Prelude.{◌≡◌};
ghost use Rattle.span.specs.Spans as spans;
ghost use Rattle.span.specs.Laws.{HullLaw, MeetLaw};

use crate::ends::{greater_mark, lesser_mark};
use crate::span::Span;
use kind::NumberKind;

impl<K: NumberKind> Span<K> {
    // The narrowest span over both.
    pub fn hull(self, other: Span<K>) -> Span<K>
        ensures value { result ≡ spans.hull K.NumberKind.model self other }
        ensures narrowest { HullLaw K.NumberKind.model self other result }
    {
        Span {
            lower: lesser_mark(self.lower, other.lower),
            upper: greater_mark(self.upper, other.upper),
        }
    }

    // What lies in both.
    pub fn meet(self, other: Span<K>) -> Span<K>
        ensures value { result ≡ spans.meet K.NumberKind.model self other }
        ensures both { MeetLaw K.NumberKind.model self other result }
    {
        Span {
            lower: greater_mark(self.lower, other.lower),
            upper: lesser_mark(self.upper, other.upper),
        }
    }
}
