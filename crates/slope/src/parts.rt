// Channels, constants, sums and differences. (Two records and the line's number are what every rule is given: a struct of the
// three would be taken apart again in each.)
ghost use Rattle.std.specs.Prelude.{◌≡◌};
ghost use Rattle.slope.specs.Rules.{given, rec, three};
ghost use Rattle.exact.specs.Fraction.{◌+F◌, ◌-F◌};
ghost use Rattle.slope.specs.Rules as rules;
ghost use Rattle.slope.specs.Truth.{Kept};
ghost use Rattle.span.specs.Spans as spans;

use crate::record::{Base, Record, Slopes, present};
use fault::Fault;
use kind::NumberKind;
use span::Span;

// A record of a straight line: slopes [s], [s], [0].
fn straight<K: NumberKind>(u: Span<K>, u0: Span<K>, s: K) -> Record<K>
    ensures { result ≡ rec u u0 (three (spans.point K.NumberKind.model s) (spans.point K.NumberKind.model s) (spans.zero_span K.NumberKind.model)) }
{
    let s = Span::point(s);
    Base { u, u0 }.sloped(Slopes {
        a: s,
        b: s,
        c: Span::point(K::zero()),
    })
}

// The swept channel, with the span of its range and that of its centre.
pub fn swept<K: NumberKind>(x: Span<K>, x0: Span<K>) -> Record<K>
    ensures { result ≡ rules.swept K.NumberKind.model x x0 }
{
    straight(x, x0, K::one())
}

// What does not move with the swept channel: another channel, or a constant.
pub fn still<K: NumberKind>(x: Span<K>) -> Record<K>
    ensures { result ≡ rules.still K.NumberKind.model x }
{
    straight(x, x, K::zero())
}

#[inline(always)]
fn sum_slopes<K: NumberKind>(base: Base<K>, p: &Record<K>, q: &Record<K>) -> Record<K>
    ensures { result ≡ rec base.u base.u0 (rules.part_slopes (spans.sum K.NumberKind.model) p.now q.now) }
{
    let Some(s) = &p.slopes else {
        return base.flat();
    };
    let Some(t) = &q.slopes else {
        return base.flat();
    };
    if t.is_still() {
        return base.sloped(*s);
    }
    if s.is_still() {
        return base.sloped(*t);
    }
    let Some(a) = s.a.sum(t.a) else {
        return base.flat();
    };
    let Some(b) = s.b.sum(t.b) else {
        return base.flat();
    };
    let Some(c) = s.c.sum(t.c) else {
        return base.flat();
    };
    base.sloped(Slopes { a, b, c })
}

#[inline(always)]
pub fn sum<K: NumberKind>(p: &Record<K>, q: &Record<K>, place: usize) -> Result<Record<K>, Fault>
    ensures value { result ≡ given place (rules.sum K.NumberKind.model p.now q.now) }
    ensures truth { Kept K.NumberKind.model ◌+F◌ (spans.sum K.NumberKind.model p.now.u q.now.u) p.now q.now result }
{
    let u = present(p.u.sum(q.u), place)?;
    let u0 = present(p.u0.sum(q.u0), place)?;
    Ok(sum_slopes(Base { u, u0 }, p, q))
}

// The negative of a record, part by part.
fn negated<K: NumberKind>(p: &Record<K>) -> Record<K>
    ensures { result ≡ rules.negated K.NumberKind.model p.now }
{
    Record {
        u: p.u.negated(),
        u0: p.u0.negated(),
        slopes: p.slopes.map(|s| Slopes {
            a: s.a.negated(),
            b: s.b.negated(),
            c: s.c.negated(),
        }),
    }
}

// The sum with the negative.
#[inline(always)]
pub fn difference<K: NumberKind>(
    p: &Record<K>,
    q: &Record<K>,
    place: usize,
) -> Result<Record<K>, Fault>
    ensures value { result ≡ given place (rules.difference K.NumberKind.model p.now q.now) }
    ensures truth { Kept K.NumberKind.model ◌-F◌ (spans.difference K.NumberKind.model p.now.u q.now.u) p.now q.now result }
{
    sum(p, &negated(q), place)
}
