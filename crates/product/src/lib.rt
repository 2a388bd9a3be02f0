// The product of two records, by a chain of `let .. else`, as this project has its slope rules.
#![tactic(auto)]

mod constants;
mod units;

ghost use Rattle.std.specs.Prelude.{◌≡◌};
ghost use Rattle.slope.specs.Rules.{given, rec};
ghost use Rattle.exact.specs.Fraction.{◌*F◌};
ghost use Rattle.product.specs.Bent.{bent_slopes};
ghost use Rattle.product.specs.Scaled.{scaled};
ghost use Rattle.slope.specs.Rules as rules;
ghost use Rattle.slope.specs.Truth.{Kept};
ghost use Rattle.span.specs.Spans as spans;

use constants::{by_constant, constant};
use fault::Fault;
use kind::NumberKind;
use slope::{Base, Record, Slopes, present};
use span::Span;
use units::{by_unit, of_units, unit_by};

// x × y part by part, or no slopes
#[inline(always)]
fn scaled<K: NumberKind>(base: Base<K>, x: &Slopes<K>, y: &Slopes<K>) -> Record<K>
    ensures { result ≡ rec base.u base.u0 (scaled K.NumberKind.model x.now y.now) }
{
    let Some(a) = x.a.product(y.a) else {
        return base.flat();
    };
    let Some(b) = x.b.product(y.b) else {
        return base.flat();
    };
    let Some(c) = x.c.product(y.c) else {
        return base.flat();
    };
    base.sloped(Slopes { a, b, c })
}

// C = Cu × V0 + U × Cv + Au × Bv, of two straight lines Au × Bv alone, beside A and B
#[inline(always)]
fn bent<K: NumberKind>(
    base: Base<K>,
    a: Span<K>,
    b: Span<K>,
    p: &Record<K>,
    q: &Record<K>,
) -> Record<K>
    ensures { result ≡ rec base.u base.u0 (bent_slopes K.NumberKind.model a b p.now q.now) }
{
    let Some(s) = &p.slopes else {
        return base.flat();
    };
    let Some(t) = &q.slopes else {
        return base.flat();
    };
    if s.c.is_zero() && t.c.is_zero() {
        let Some(c) = s.a.product(t.b) else {
            return base.flat();
        };
        return base.sloped(Slopes { a, b, c });
    }
    let Some(c1) = s.c.product(q.u0) else {
        return base.flat();
    };
    let Some(c2) = p.u.product(t.c) else {
        return base.flat();
    };
    let Some(c12) = c1.sum(c2) else {
        return base.flat();
    };
    let Some(c3) = s.a.product(t.b) else {
        return base.flat();
    };
    let Some(c) = c12.sum(c3) else {
        return base.flat();
    };
    base.sloped(Slopes { a, b, c })
}

// A = Au × V0 + U × Av; B = Bu × V0 + U0 × Bv; and C
#[inline(always)]
fn whole_rule<K: NumberKind>(base: Base<K>, p: &Record<K>, q: &Record<K>) -> Record<K>
    ensures { result ≡ rec base.u base.u0 (rules.product_slopes K.NumberKind.model p.now q.now) }
{
    let Some(s) = &p.slopes else {
        return base.flat();
    };
    let Some(t) = &q.slopes else {
        return base.flat();
    };
    let Some(a1) = s.a.product(q.u0) else {
        return base.flat();
    };
    let Some(a2) = p.u.product(t.a) else {
        return base.flat();
    };
    let Some(a) = a1.sum(a2) else {
        return base.flat();
    };
    let Some(b1) = s.b.product(q.u0) else {
        return base.flat();
    };
    let Some(b2) = p.u0.product(t.b) else {
        return base.flat();
    };
    let Some(b) = b1.sum(b2) else {
        return base.flat();
    };
    bent(base, a, b, p, q)
}

// The rule without the products by [0] of an operand that stands still, and by [1] of one with slopes [1], [1], [0].
#[inline(always)]
fn product_slopes<K: NumberKind>(base: Base<K>, p: &Record<K>, q: &Record<K>) -> Record<K>
    ensures { result ≡ rec base.u base.u0 (rules.product_slopes K.NumberKind.model p.now q.now) }
{
    let Some(s) = &p.slopes else {
        return base.flat();
    };
    let Some(t) = &q.slopes else {
        return base.flat();
    };
    if t.is_still() {
        if s.is_still() {
            return base.sloped(*s);
        }
        let factors = Slopes {
            a: q.u0,
            b: q.u0,
            c: q.u0,
        };
        return scaled(base, s, &factors);
    }
    if s.is_still() {
        let factors = Slopes {
            a: p.u,
            b: p.u0,
            c: p.u,
        };
        return scaled(base, &factors, t);
    }
    if t.is_unit() {
        if s.is_unit() {
            return of_units(base, p, q);
        }
        return by_unit(base, p, s, q);
    }
    if s.is_unit() {
        return unit_by(base, p, q, t);
    }
    whole_rule(base, p, q)
}

// The record of a product.
#[inline(always)]
pub fn product<K: NumberKind>(
    p: &Record<K>,
    q: &Record<K>,
    place: usize,
) -> Result<Record<K>, Fault>
    ensures value { result ≡ given place (rules.product K.NumberKind.model p.now q.now) }
    ensures truth { Kept K.NumberKind.model ◌*F◌ (spans.product K.NumberKind.model p.now.u q.now.u) p.now q.now result }
{
    if let Some(k) = constant(q) {
        return by_constant(p, k, place);
    }
    if let Some(k) = constant(p) {
        return by_constant(q, k, place);
    }
    let u = present(p.u.product(q.u), place)?;
    let u0 = present(p.u0.product(q.u0), place)?;
    Ok(product_slopes(Base { u, u0 }, p, q))
}
