// The product by a constant: five products of a span by one mark.
ghost use Rattle.std.specs.Prelude.{◌≡◌, Some};
ghost use Rattle.slope.specs.Rules.{given, product, rec, still};
ghost use Rattle.product.specs.Scaled.{slopes_times, times_slopes};
ghost use Rattle.span.specs.Spans.{point};

use fault::Fault;
use kind::NumberKind;
use slope::{Base, Record, Slopes, present};

// k, where the record is that of a constant k. (Of most records the first test fails, and no more is asked.)
#[inline(always)]
pub fn constant<K: NumberKind>(p: &Record<K>) -> Option<K>
    ensures { (k : K) → result ≡ Some k → p.now ≡ still K.NumberKind.model (point K.NumberKind.model k) }
{
    let k = p.u.sole()?;
    let k0 = p.u0.sole()?;
    let Some(s) = &p.slopes else {
        return None;
    };
    if k.at_most(k0) && k0.at_most(k) && s.is_still() {
        Some(k)
    } else {
        None
    }
}

// The slopes × k, or no slopes. Those that are [0] stay [0].
#[inline(always)]
fn slopes_by<K: NumberKind>(base: Base<K>, p: &Record<K>, k: K) -> Record<K>
    ensures right { result ≡ rec base.u base.u0 (slopes_times K.NumberKind.model p.now.slopes (point K.NumberKind.model k)) }
    ensures left { result ≡ rec base.u base.u0 (times_slopes K.NumberKind.model (point K.NumberKind.model k) p.now.slopes) }
{
    let Some(s) = &p.slopes else {
        return base.flat();
    };
    if s.is_still() {
        return base.sloped(*s);
    }
    let Some(a) = s.a.scaled(k) else {
        return base.flat();
    };
    let Some(b) = s.b.scaled(k) else {
        return base.flat();
    };
    let Some(c) = s.c.scaled(k) else {
        return base.flat();
    };
    base.sloped(Slopes { a, b, c })
}

// p × k, which is k × p
#[inline(always)]
pub fn by_constant<K: NumberKind>(p: &Record<K>, k: K, place: usize) -> Result<Record<K>, Fault>
    ensures right { result ≡ given place (product K.NumberKind.model p.now (still K.NumberKind.model (point K.NumberKind.model k))) }
    ensures left { result ≡ given place (product K.NumberKind.model (still K.NumberKind.model (point K.NumberKind.model k)) p.now) }
{
    let u = present(p.u.scaled(k), place)?;
    let u0 = present(p.u0.scaled(k), place)?;
    Ok(slopes_by(Base { u, u0 }, p, k))
}
