// A span of a kind's marks.
ghost use Rattle.std.specs.Prelude.{◌≡◌};
ghost use Rattle.span.specs.Spans as spans;
ghost use Rattle.span.specs.Laws.{CountsLaw};

use kind::NumberKind;

// All numbers from a lower to an upper mark. Working lines may hold anything, so nothing here rests on their order.
#[derive(Clone, Copy, PartialEq, Eq, Debug)]
pub struct Span<K: NumberKind> {
    pub lower: K,
    pub upper: K,
}

// The span from two ends that may be absent, if both are there.
#[inline(always)]
pub fn ends<K: NumberKind>(lower: Option<K>, upper: Option<K>) -> Option<Span<K>>
    ensures { result ≡ spans.ends K.NumberKind.model lower upper }
{
    Some(Span {
        lower: lower?,
        upper: upper?,
    })
}

impl<K: NumberKind> Span<K> {
    // The narrowest span over a range of counts. (Two counts in any order: a type for ranges would ask that they be in order.)
    pub fn of_counts(lower: i32, upper: i32) -> Option<Span<K>>
        ensures value { result ≡ spans.of_counts K.NumberKind.model lower upper }
        ensures narrowest { CountsLaw K.NumberKind.model lower upper result }
    {
        ends(K::count_below(lower), K::count_above(upper))
    }
}
