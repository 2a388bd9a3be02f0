// The greater, the lesser and the branch: one record as it stands where the spans decide, else both joined.
ghost use Rattle.std.specs.Prelude.{◌≡◌};
ghost use Rattle.slope.specs.Rules.{rec};
ghost use Rattle.exact.specs.Fraction.{max_F, min_F};
ghost use Rattle.slope.specs.Rules as rules;
ghost use Rattle.slope.specs.Truth.{Chosen, Branched};
ghost use Rattle.span.specs.Spans.{hull};

use crate::record::{Base, Record, Slopes};
use kind::NumberKind;
use span::Span;

fn joined<K: NumberKind>(base: Base<K>, p: &Record<K>, q: &Record<K>) -> Record<K>
    ensures { result ≡ rec base.u base.u0 (rules.hulls K.NumberKind.model p.now q.now) }
{
    let Some(s) = &p.slopes else {
        return base.flat();
    };
    let Some(t) = &q.slopes else {
        return base.flat();
    };
    base.sloped(Slopes {
        a: s.a.hull(t.a),
        b: s.b.hull(t.b),
        c: s.c.hull(t.c),
    })
}

// The record of the greater. On a tie it is the first operand's.
pub fn greater<K: NumberKind>(p: &Record<K>, q: &Record<K>) -> Record<K>
    ensures value { result ≡ rules.greater K.NumberKind.model p.now q.now }
    ensures truth { Chosen K.NumberKind.model max_F p.now q.now result }
{
    if p.u.clears(q.u) {
        *p
    } else if q.u.clears(p.u) {
        *q
    } else {
        let base = Base {
            u: p.u.greater(q.u),
            u0: p.u0.greater(q.u0),
        };
        joined(base, p, q)
    }
}

// The record of the lesser. (By negated records the mirror image would be no shorter, and negate every span twice.)
pub fn lesser<K: NumberKind>(p: &Record<K>, q: &Record<K>) -> Record<K>
    ensures value { result ≡ rules.lesser K.NumberKind.model p.now q.now }
    ensures truth { Chosen K.NumberKind.model min_F p.now q.now result }
{
    if q.u.clears(p.u) {
        *p
    } else if p.u.clears(q.u) {
        *q
    } else {
        let base = Base {
            u: p.u.lesser(q.u),
            u0: p.u0.lesser(q.u0),
        };
        joined(base, p, q)
    }
}

// The span of q's or r's values, or of both, by the test on s. (`branch` asks the same of S, and chooses records.)
fn chosen<K: NumberKind>(s: Span<K>, q: Span<K>, r: Span<K>) -> Span<K>
    ensures { result ≡ rules.chosen K.NumberKind.model s q r (hull K.NumberKind.model q r) }
{
    if K::zero().at_most(s.upper) {
        if K::zero().at_most(s.lower) {
            r
        } else {
            q.hull(r)
        }
    } else {
        q
    }
}

// The record of q's value where s is below 0, and of r's otherwise. No slope covers the jump where it is undecided.
pub fn branch<K: NumberKind>(s: &Record<K>, q: &Record<K>, r: &Record<K>) -> Record<K>
    ensures value { result ≡ rules.branch K.NumberKind.model s.now q.now r.now }
    ensures truth { Branched K.NumberKind.model s.now q.now r.now result }
{
    if K::zero().at_most(s.u.upper) {
        if K::zero().at_most(s.u.lower) {
            *r
        } else {
            Record::flat(q.u.hull(r.u), chosen(s.u0, q.u0, r.u0))
        }
    } else {
        *q
    }
}
