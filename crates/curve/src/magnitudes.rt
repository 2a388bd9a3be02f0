// The magnitude. Its shape depends on which ends of U and U0 lie on which side of 0.
ghost use Rattle.std.specs.Prelude.{◌≡◌, Some};
ghost use Rattle.truth.specs.Curve.{magnitude_F};
ghost use Rattle.span.specs.Spans as spans;
ghost use Rattle.slope.specs.Curves as curves;
ghost use Rattle.curve.specs.MagnitudeBends.{magnitude_bends};

use crate::lifting::Curve;
use kind::NumberKind;
use slope::Shape;
use span::Span;

#[derive(Clone, Copy)]
pub struct Magnitude;

// E = G, and K = [0]: the rows where U lies on one side of 0, and the row where U0 does not.
fn straight<K: NumberKind>(lower: K, upper: K) -> Shape<K>
    ensures { result ≡ curves.straight K.NumberKind.model lower upper }
{
    let e = Span { lower, upper };
    Shape {
        e,
        g: e,
        k: Span::point(K::zero()),
    }
}

// U0 below 0 and U's upper end q above it; s is U0's upper end.
fn left_row<K: NumberKind>(q: K, s: K) -> Option<Shape<K>>
    ensures { result ≡ curves.left_row K.NumberKind.model q s }
{
    let n = Span::point(q).sum(Span::point(s))?;
    let d = Span::point(q).difference(Span::point(s))?;
    let g = n.quotient(d)?;
    let t = Span::point(s.negated());
    let k = Span::point(K::one()).quotient(t.sum(t)?)?;
    let low = K::one().negated();
    Some(Shape {
        e: Span::point(low),
        g: Span {
            lower: low,
            upper: g.upper,
        },
        k: Span {
            lower: K::zero(),
            upper: k.upper,
        },
    })
}

// The row above by the mirror image: E and G negated.
fn turned<K: NumberKind>(o: Option<Shape<K>>) -> Option<Shape<K>>
    ensures { result ≡ curves.turned K.NumberKind.model o }
{
    o.map(|f| Shape {
        e: f.e.negated(),
        g: f.g.negated(),
        k: f.k,
    })
}

impl<K: NumberKind> Curve<K> for Magnitude {
    ghost exact = { magnitude_F };

    ghost image = { λ s. Some (spans.magnitude K.NumberKind.model s) };

    ghost bend = { curves.magnitude_shape K.NumberKind.model };

    ghost bends = { magnitude_bends K.NumberKind.model K.NumberKind.rules };

    fn values(self, s: Span<K>) -> Option<Span<K>>
        ensures { result ≡ Some (spans.magnitude K.NumberKind.model s) }
    {
        Some(s.magnitude())
    }

    fn shape(self, u: Span<K>, u0: Span<K>) -> Option<Shape<K>>
        ensures { result ≡ curves.magnitude_shape K.NumberKind.model u u0 }
    {
        let zero = K::zero();
        let one = K::one();
        if u.upper.at_most(zero) {
            return Some(straight(one.negated(), one.negated()));
        }
        if zero.at_most(u.lower) {
            return Some(straight(one, one));
        }
        if zero.at_most(u0.upper) {
            if u0.lower.at_most(zero) {
                return Some(straight(one.negated(), one));
            }
            return turned(left_row(u.lower.negated(), u0.lower.negated()));
        }
        left_row(u.upper, u0.upper)
    }
}
