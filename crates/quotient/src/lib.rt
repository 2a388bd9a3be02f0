// The quotient of two records, by a chain of `let .. else`, as this project has its slope rules.
#![tactic(auto)]

ghost use Rattle.std.specs.Prelude.{◌≡◌};
ghost use Rattle.quotient.specs.Still.{over_still};
ghost use Rattle.slope.specs.Rules.{divided, rec};
ghost use Rattle.slope.specs.Rules as rules;
ghost use Rattle.slope.specs.Truth.{Divided};
ghost use Rattle.span.specs.Spans as spans;

use fault::{Cause, Fault};
use kind::NumberKind;
use slope::{Base, Record, Slopes, present};

// W0 = U0 / V0; A = (Au − W0 × Av) / V; B = (Bu − W0 × Bv) / V0; C = (Cu − W0 × Cv − B × Av) / V
fn whole_rule<K: NumberKind>(base: Base<K>, p: &Record<K>, q: &Record<K>) -> Record<K>
    ensures { result ≡ rec base.u base.u0 (rules.quotient_slopes K.NumberKind.model p.now q.now base.u0) }
{
    let Some(s) = &p.slopes else {
        return base.flat();
    };
    let Some(t) = &q.slopes else {
        return base.flat();
    };
    let Some(a1) = base.u0.product(t.a) else {
        return base.flat();
    };
    let Some(a2) = s.a.difference(a1) else {
        return base.flat();
    };
    let Some(a) = a2.quotient(q.u) else {
        return base.flat();
    };
    let Some(b1) = base.u0.product(t.b) else {
        return base.flat();
    };
    let Some(b2) = s.b.difference(b1) else {
        return base.flat();
    };
    let Some(b) = b2.quotient(q.u0) else {
        return base.flat();
    };
    let Some(c1) = base.u0.product(t.c) else {
        return base.flat();
    };
    let Some(c2) = s.c.difference(c1) else {
        return base.flat();
    };
    let Some(c3) = b.product(t.a) else {
        return base.flat();
    };
    let Some(c4) = c2.difference(c3) else {
        return base.flat();
    };
    let Some(c) = c4.quotient(q.u) else {
        return base.flat();
    };
    base.sloped(Slopes { a, b, c })
}

// A = Au / V; B = Bu / V0; C = Cu / V
fn over_still<K: NumberKind>(base: Base<K>, s: &Slopes<K>, q: &Record<K>) -> Record<K>
    ensures { result ≡ rec base.u base.u0 (over_still K.NumberKind.model s.now q.now) }
{
    let Some(a) = s.a.quotient(q.u) else {
        return base.flat();
    };
    let Some(b) = s.b.quotient(q.u0) else {
        return base.flat();
    };
    let Some(c) = s.c.quotient(q.u) else {
        return base.flat();
    };
    base.sloped(Slopes { a, b, c })
}

// The rule without the products by [0] of a divisor that stands still.
fn quotient_slopes<K: NumberKind>(base: Base<K>, p: &Record<K>, q: &Record<K>) -> Record<K>
    ensures { result ≡ rec base.u base.u0 (rules.quotient_slopes K.NumberKind.model p.now q.now base.u0) }
{
    let Some(s) = &p.slopes else {
        return base.flat();
    };
    let Some(t) = &q.slopes else {
        return base.flat();
    };
    if t.is_still() {
        over_still(base, s, q)
    } else {
        whole_rule(base, p, q)
    }
}

// The record of a quotient. Refused first where the divisor's span over the box holds 0.
pub fn quotient<K: NumberKind>(
    p: &Record<K>,
    q: &Record<K>,
    place: usize,
) -> Result<Record<K>, Fault>
    ensures value { result ≡ divided K.NumberKind.model place p.now q.now }
    ensures truth { Divided K.NumberKind.model (spans.quotient K.NumberKind.model p.now.u q.now.u) p.now q.now result }
{
    if q.u.holds_zero() {
        return Err(Cause::Divisor.at(place));
    }
    let u = present(p.u.quotient(q.u), place)?;
    let u0 = present(p.u0.quotient(q.u0), place)?;
    Ok(quotient_slopes(Base { u, u0 }, p, q))
}
