// Spans and a sheet at each kind, the odd one included: the same code, with nothing to lean on but the rules.
use fault::Cause;
use fixed::Fixed;
use kind::NumberKind;
use line::Line;
use odd::Sign;
use report::Report;
use sheet::Sheet;
use sliding::Sliding;
use slope::Record;
use span::Span;
use std::process::Abort;
use std::test::Fail;

// −1 to 1, and what becomes of it.
fn spans<K: NumberKind + PartialEq>(rt: &impl Abort) -> Result<(), Fail> {
    let zero = K::zero();
    let one = K::one();
    let s = Span {
        lower: one.negated(),
        upper: one,
    };
    let from_zero = Span {
        lower: zero,
        upper: one,
    };
    assert!(rt; s.negated() == s);
    assert!(rt; s.magnitude() == from_zero);
    assert!(rt; s.square() == Some(from_zero));
    assert!(rt; s.product(s) == Some(s));
    assert!(rt; s.hull(Span::point(zero)) == s);
    assert!(rt; s.meet(Span::point(zero)) == Span::point(zero));
    assert!(rt; s.quotient(s).is_none(), "the divisor holds 0");
    assert!(rt; s.quotient(Span::point(zero)).is_none());
    assert!(rt; s.quotient(Span::point(one.negated())) == Some(s));
    Ok(())
}

#[test]
fn all_kinds(rt: HostRuntime) -> Result<(), Fail> {
    spans::<Fixed>(&rt)?;
    spans::<Sliding>(&rt)?;
    spans::<Sign>(&rt)
}

// In the odd kind 1 + 1 is beyond T.
#[test]
fn beyond(rt: HostRuntime) {
    let one: Span<Sign> = Span::point(Sign::one());
    assert!(rt; one.sum(one).is_none());
    assert!(rt; one.difference(one).is_some());
    let half: Option<Span<Sign>> = Span::of_counts(32768, 32768);
    let from_zero = Span {
        lower: Sign::Nought,
        upper: Sign::Plus,
    };
    assert!(rt; half == Some(from_zero));
    let beyond: Option<Span<Sign>> = Span::of_counts(0, 65537);
    assert!(rt; beyond.is_none());
}

#[test]
fn odd_sheet(rt: HostRuntime) {
    let nought = Span::point(Sign::zero());
    let mut working: [Record<Sign>; 64] = [Record::flat(nought, nought); 64];
    let mut sheet = Sheet::blank();
    assert!(rt; sheet.open(&[-65536], &[65536], 0, 0).is_ok());
    assert!(rt; sheet.add(&mut working[..], Line::Channel(0)).is_ok());
    assert!(rt; sheet.add(&mut working[..], Line::Square(0)).is_ok());
    let sum = sheet.add(&mut working[..], Line::Sum(0, 0));
    assert!(rt; sum == Err(Cause::Absent.at(2)));
    assert!(rt; sheet.add(&mut working[..], Line::Greater(0, 1)).is_ok());
    let report = sheet.report(&working[..], 1);
    let half = Report {
        middle: 32768,
        margin: 32768,
    };
    assert!(rt; report == Ok(half));
}
