// Products where a factor has slopes [1], [1], [0]. A product with [1] is the span with its ends in order, and is not computed.
ghost use Rattle.std.specs.Prelude.{◌≡◌};
ghost use Rattle.product.specs.Unit.{by_unit, of_units, scaled_sum, unit_by};
ghost use Rattle.slope.specs.Rules.{rec};

use kind::NumberKind;
use slope::{Base, Record, Slopes};
use span::Span;

// x × y + z part by part, the ends of z in order, or no slopes
#[inline(always)]
fn scaled_sum<K: NumberKind>(
    base: Base<K>,
    x: &Slopes<K>,
    y: &Slopes<K>,
    z: &Slopes<K>,
) -> Record<K>
    ensures { result ≡ rec base.u base.u0 (scaled_sum K.NumberKind.model x.now y.now z.now) }
{
    let Some(a1) = x.a.product(y.a) else {
        return base.flat();
    };
    let Some(a) = a1.sum(z.a.sorted()) else {
        return base.flat();
    };
    let Some(b1) = x.b.product(y.b) else {
        return base.flat();
    };
    let Some(b) = b1.sum(z.b.sorted()) else {
        return base.flat();
    };
    let Some(c1) = x.c.product(y.c) else {
        return base.flat();
    };
    let Some(c) = c1.sum(z.c.sorted()) else {
        return base.flat();
    };
    base.sloped(Slopes { a, b, c })
}

// The second's are: A = Au × V0 + U; B = Bu × V0 + U0; C = Cu × V0 + Au.
#[inline(always)]
pub fn by_unit<K: NumberKind>(
    base: Base<K>,
    p: &Record<K>,
    s: &Slopes<K>,
    q: &Record<K>,
) -> Record<K>
    ensures { result ≡ rec base.u base.u0 (by_unit K.NumberKind.model p.now s.now q.now) }
{
    let factors = Slopes {
        a: q.u0,
        b: q.u0,
        c: q.u0,
    };
    let terms = Slopes {
        a: p.u,
        b: p.u0,
        c: s.a,
    };
    scaled_sum(base, s, &factors, &terms)
}

// The first's are: A = U × Av + V0; B = U0 × Bv + V0; C = U × Cv + Bv.
#[inline(always)]
pub fn unit_by<K: NumberKind>(
    base: Base<K>,
    p: &Record<K>,
    q: &Record<K>,
    t: &Slopes<K>,
) -> Record<K>
    ensures { result ≡ rec base.u base.u0 (unit_by K.NumberKind.model p.now q.now t.now) }
{
    let factors = Slopes {
        a: p.u,
        b: p.u0,
        c: p.u,
    };
    let terms = Slopes {
        a: q.u0,
        b: q.u0,
        c: t.b,
    };
    scaled_sum(base, &factors, t, &terms)
}

// Both are: A = V0 + U; B = V0 + U0; C = [1].
#[inline(always)]
pub fn of_units<K: NumberKind>(base: Base<K>, p: &Record<K>, q: &Record<K>) -> Record<K>
    ensures { result ≡ rec base.u base.u0 (of_units K.NumberKind.model p.now q.now) }
{
    let v0 = q.u0.sorted();
    let Some(a) = v0.sum(p.u.sorted()) else {
        return base.flat();
    };
    let Some(b) = v0.sum(p.u0.sorted()) else {
        return base.flat();
    };
    let c = Span::point(K::one());
    base.sloped(Slopes { a, b, c })
}
