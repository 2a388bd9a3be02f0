// Records of lines.
ghost use Rattle.std.specs.Prelude.{◌≡◌, None, Some};
ghost use Rattle.slope.specs.Rules.{given, rec};
ghost use Rattle.slope.specs.Rules as rules;

use fault::{Cause, Fault};
use kind::NumberKind;
use span::Span;

// The slope spans of a line, in the forms u − u0 = a × h and u − u0 = b × h + c × h × h.
#[derive(Clone, Copy, PartialEq, Eq, Debug)]
pub struct Slopes<K: NumberKind> {
    pub a: Span<K>,
    pub b: Span<K>,
    pub c: Span<K>,
}

// What is known of a line: its span over the box, its span at the centre, and its slopes or none.
#[derive(Clone, Copy, PartialEq, Eq, Debug)]
pub struct Record<K: NumberKind> {
    pub u: Span<K>,
    pub u0: Span<K>,
    pub slopes: Option<Slopes<K>>,
}

// The spans E, G, K of a curve for one U and U0.
#[derive(Clone, Copy, PartialEq, Eq, Debug)]
pub struct Shape<K: NumberKind> {
    pub e: Span<K>,
    pub g: Span<K>,
    pub k: Span<K>,
}

// A record's U and U0, which it has with slopes or with none.
#[derive(Clone, Copy, PartialEq, Eq, Debug)]
pub struct Base<K: NumberKind> {
    pub u: Span<K>,
    pub u0: Span<K>,
}

impl<K: NumberKind> Slopes<K> {
    // Whether all three are [0], as of a constant or a channel that is not swept. Most lines have such an operand, and rules
    // that leave out what it adds are faster.
    #[inline(always)]
    pub fn is_still(&self) -> bool
        ensures { result ≡ rules.is_still K.NumberKind.model self.now }
    {
        self.a.is_zero() && self.b.is_zero() && self.c.is_zero()
    }

    // Whether they are [1], [1], [0], as of the swept channel, and of its sum with what stands still. A rule for products of such lines
    // that leaves out the products by [1] is faster.
    #[inline(always)]
    pub fn is_unit(&self) -> bool
        ensures { result ≡ rules.is_unit K.NumberKind.model self.now }
    {
        self.a.is_one() && self.b.is_one() && self.c.is_zero()
    }
}

impl<K: NumberKind> Base<K> {
    // The record with no slopes.
    pub fn flat(self) -> Record<K>
        ensures { result ≡ rec self.u self.u0 None }
    {
        let Base { u, u0 } = self;
        Record {
            u,
            u0,
            slopes: None,
        }
    }

    // The record with these slopes.
    pub fn sloped(self, slopes: Slopes<K>) -> Record<K>
        ensures { result ≡ rec self.u self.u0 (Some slopes) }
    {
        let Base { u, u0 } = self;
        Record {
            u,
            u0,
            slopes: Some(slopes),
        }
    }
}

impl<K: NumberKind> Record<K> {
    // A record with no slopes, of two spans that are no base.
    pub fn flat(u: Span<K>, u0: Span<K>) -> Record<K>
        ensures { result ≡ rec u u0 None }
    {
        Base { u, u0 }.flat()
    }
}

// The span of a result has to be there; its absence is a refusal at the line.
pub fn present<K: NumberKind>(span: Option<Span<K>>, place: usize) -> Result<Span<K>, Fault>
    ensures { result ≡ given place span }
{
    span.ok_or(Cause::Absent.at(place))
}
