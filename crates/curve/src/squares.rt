// The square.
ghost use Rattle.std.specs.Prelude.{◌≡◌};
ghost use Rattle.truth.specs.Curve.{square_F};
ghost use Rattle.span.specs.Spans as spans;
ghost use Rattle.slope.specs.Curves as curves;
ghost use Rattle.curve.specs.SquareBends.{square_bends};

use crate::lifting::Curve;
use kind::NumberKind;
use slope::Shape;
use span::Span;

#[derive(Clone, Copy)]
pub struct Square;

impl<K: NumberKind> Curve<K> for Square {
    ghost exact = { square_F };

    ghost image = { spans.square K.NumberKind.model };

    ghost bend = { curves.square_shape K.NumberKind.model };

    ghost bends = { square_bends K.NumberKind.model K.NumberKind.rules };

    fn values(self, s: Span<K>) -> Option<Span<K>>
        ensures { result ≡ spans.square K.NumberKind.model s }
    {
        s.square()
    }

    fn shape(self, u: Span<K>, u0: Span<K>) -> Option<Shape<K>>
        ensures { result ≡ curves.square_shape K.NumberKind.model u u0 }
    {
        Some(Shape {
            e: u0.sum(u0)?,
            g: u.sum(u0)?,
            k: Span::point(K::one()),
        })
    }
}
