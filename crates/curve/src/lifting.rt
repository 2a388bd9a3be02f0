// The lifting rule of curves, by a chain of `let .. else`, as this project has its slope rules.
ghost use Rattle.std.specs.Prelude.{◌≡◌, Option};
ghost use Rattle.exact.specs.Fraction.{Frac};
ghost use Rattle.slope.specs.declared.record.Shape.{Shape};
ghost use Rattle.span.specs.declared.span.Span.{Span};
ghost use Rattle.slope.specs.Curves.{Bends, Curved};
ghost use Rattle.curve.specs.Straight.{bent, scaled};
ghost use Rattle.slope.specs.Curves as curves;
ghost use Rattle.slope.specs.Rules.{given, rec};

use fault::Fault;
use kind::NumberKind;
use slope::{Base, Record, Shape, Slopes, present};
use span::Span;

// A function of one line. `exact` is the function, `image` its span of values, and `bend` its spans E, G, K for U and U0. Its one
// law: for every u in U and u0 in U0 there are e, g, k in E, G, K with f(u) − f(u0) = g × (u − u0) and g = e + k × (u − u0).
pub trait Curve<K: NumberKind>: Copy {
    ghost exact: { Frac → Frac };

    ghost image: { Span K → Option (Span K) };

    ghost bend: { Span K → Span K → Option (Shape K) };

    fn values(self, s: Span<K>) -> Option<Span<K>>
        ensures { result ≡ image s };

    fn shape(self, u: Span<K>, u0: Span<K>) -> Option<Shape<K>>
        ensures { result ≡ bend u u0 };

    ghost bends: { Bends K.NumberKind.model exact image bend };
}

// A = G × Au; B = E × Bu; C = G × Cu + (K × Au) × Bu. Where Cu = [0], as of a straight line, C is its second term alone.
#[inline(always)]
fn bent<K: NumberKind>(base: Base<K>, f: &Shape<K>, s: &Slopes<K>) -> Record<K>
    ensures { result ≡ rec base.u base.u0 (bent K.NumberKind.model f.now s.now) }
{
    let Some(a) = f.g.product(s.a) else {
        return base.flat();
    };
    let Some(b) = f.e.product(s.b) else {
        return base.flat();
    };
    let Some(c1) = f.k.product(s.a) else {
        return base.flat();
    };
    let Some(c2) = c1.product(s.b) else {
        return base.flat();
    };
    if s.c.is_zero() {
        return base.sloped(Slopes { a, b, c: c2 });
    }
    let Some(c3) = f.g.product(s.c) else {
        return base.flat();
    };
    let Some(c) = c3.sum(c2) else {
        return base.flat();
    };
    base.sloped(Slopes { a, b, c })
}

// A = g × Au; B = e × Bu; C = g × Cu: the curve has K = [0], G = [g] and E = [e], as the magnitude of what lies on one side of 0.
#[inline(always)]
fn scaled<K: NumberKind>(base: Base<K>, g: K, e: K, s: &Slopes<K>) -> Record<K>
    ensures { result ≡ rec base.u base.u0 (scaled K.NumberKind.model g e s.now) }
{
    let Some(a) = s.a.scaled(g) else {
        return base.flat();
    };
    let Some(b) = s.b.scaled(e) else {
        return base.flat();
    };
    let Some(c) = s.c.scaled(g) else {
        return base.flat();
    };
    base.sloped(Slopes { a, b, c })
}

// The rule without what [0] adds.
#[inline(always)]
fn lift_slopes<K: NumberKind>(base: Base<K>, f: &Shape<K>, p: &Record<K>) -> Record<K>
    ensures { result ≡ rec base.u base.u0 (curves.lift_slopes K.NumberKind.model f.now p.now.slopes) }
{
    let Some(s) = &p.slopes else {
        return base.flat();
    };
    if s.is_still() {
        return base.sloped(*s);
    }
    if f.k.is_zero()
        && let Some(g) = f.g.sole()
        && let Some(e) = f.e.sole()
    {
        return scaled(base, g, e, s);
    }
    bent(base, f, s)
}

// The record of a curve's value.
#[inline(always)]
pub fn lift<K: NumberKind, C: Curve<K>>(
    curve: C,
    p: &Record<K>,
    place: usize,
) -> Result<Record<K>, Fault>
    ensures value { result ≡ given place (curves.lift K.NumberKind.model C.Curve.image C.Curve.bend p.now) }
    ensures truth { Curved K.NumberKind.model C.Curve.exact (C.Curve.image p.now.u) p.now result }
{
    let u = present(curve.values(p.u), place)?;
    let u0 = present(curve.values(p.u0), place)?;
    let base = Base { u, u0 };
    let Some(f) = curve.shape(p.u, p.u0) else {
        return Ok(base.flat());
    };
    Ok(lift_slopes(base, &f, p))
}
