// Reports of records.
ghost use Rattle.std.specs.Prelude.{◌≡◌, ◌^◌, pos, neg_ℤ, ◌≤ℤ◌};
ghost use Rattle.std.specs.Int.{int_div_euclid};
ghost use Rattle.boxes.specs.Stored.{box_of};
ghost use Rattle.span.specs.Narrowest.{Held};
ghost use Rattle.report.specs.Near.{Near, Covers};
ghost use Rattle.report.specs.Reports as reports;

use crate::answer::Report;
use crate::forms::{distance, first_form, narrowed, second_form};
use boxes::ChannelBox;
use kind::NumberKind;
use slope::Record;
use span::Span;

// The intersection of U and of the forms that are there.
pub fn range_of<K: NumberKind>(b: &ChannelBox, r: &Record<K>) -> Span<K>
    ensures value { result ≡ reports.range K.NumberKind.model (box_of b.now) r.now }
    ensures truth { Covers K.NumberKind.model (box_of b.now) r.now (Held K.NumberKind.model result) }
{
    let Some(d) = distance(b) else {
        return r.u;
    };
    narrowed(narrowed(r.u, first_form(r, d)), second_form(r, d))
}

// The ends of a range in whole 1/65,536, outward.
fn low<K: NumberKind>(range: Span<K>) -> i64
    ensures { result ≡ reports.low K.NumberKind.model range }
{
    range.lower.floor()
}

fn high<K: NumberKind>(range: Span<K>) -> i64
    ensures { result ≡ reports.high K.NumberKind.model range }
{
    range.upper.ceiling()
}

// Half of a number, rounded down, also where it is negative.
fn half(n: i64) -> i64
    ensures { result ≡ int_div_euclid n (pos 2) }
{
    n.div_euclid(2)
}

fn between(low: i64, high: i64) -> Report
    requires low_from { neg_ℤ (pos (2 ^ 56)) ≤ℤ low }
    requires low_to { low ≤ℤ pos (2 ^ 56) }
    requires high_from { neg_ℤ (pos (2 ^ 56)) ≤ℤ high }
    requires high_to { high ≤ℤ pos (2 ^ 56) }
    ensures { result ≡ reports.report_of low high }
{
    let middle = half(low + high);
    Report {
        middle,
        margin: high - middle,
    }
}

// The range of a line as a middle and a margin. It answers for any record, and covers the line's exact value if the record is true.
pub fn report_of<K: NumberKind>(b: &ChannelBox, r: &Record<K>) -> Report
    ensures value { result ≡ reports.reported K.NumberKind.model (box_of b.now) r.now }
    ensures truth { Covers K.NumberKind.model (box_of b.now) r.now (Near result) }
{
    let range = range_of(b, r);
    between(low(range), high(range))
}
