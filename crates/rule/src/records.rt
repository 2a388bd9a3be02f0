// Making the record of a line.
ghost use Rattle.std.specs.Prelude.{◌≡◌, ◌<◌, Ok, length, take};
ghost use Rattle.std.specs.List.{slice_get};
ghost use Rattle.fault.specs.Refusals.{after, found};
ghost use Rattle.fault.specs.declared.fault.Cause.TheVariants.{NoChannel};
ghost use Rattle.boxes.specs.Stored.{box_of};
ghost use Rattle.rule.specs.Lent.{lent, lent_two};
ghost use Rattle.rule.specs.Placed.{accepts, placed, stored};
ghost use Rattle.rule.specs.Records.{RecordsTrue};
ghost use Rattle.rule.specs.Rule as rules;
ghost use Rattle.slope.specs.Curves.{lift};
ghost use Rattle.slope.specs.Rules.{given};
ghost use Rattle.slope.specs.Rules as slope;

use crate::joints::{Difference, Greater, Joint, Lesser, Product, Quotient, Sum};
use boxes::{ChannelBox, Range, count, range_at};
use curve::{Curve, Magnitude, Square, lift};
use fault::{Cause, Fault};
use kind::NumberKind;
use line::Line;
use slope::{Record, branch, present, still, swept};
use span::Span;

// The record of a range of counts that stays whole.
fn still_range<K: NumberKind>(range: Range, place: usize) -> Result<Record<K>, Fault>
    ensures { result ≡ rules.still_range K.NumberKind.model range.lower range.upper place }
{
    let x = present(Span::of_counts(range.lower, range.upper), place)?;
    Ok(still(x))
}

// The record of a range of counts that is swept about a centre.
fn swept_range<K: NumberKind>(range: Range, centre: i32, place: usize) -> Result<Record<K>, Fault>
    ensures { result ≡ rules.swept_range K.NumberKind.model range.lower range.upper centre place }
{
    let x = present(Span::of_counts(range.lower, range.upper), place)?;
    let x0 = present(Span::of_counts(centre, centre), place)?;
    Ok(swept(x, x0))
}

// The range of a channel, if the box has it.
fn channel_range(b: &ChannelBox, c: usize, place: usize) -> Result<Range, Fault>
    ensures { result ≡ found NoChannel place (slice_get (take b.now.channels b.now.ranges) c) }
{
    range_at(&b.ranges[..b.channels], c, place)
}

fn operand<K: NumberKind>(earlier: &[Record<K>], l: usize) -> Result<&Record<K>, Fault>
    ensures { lent result ≡ rules.operand earlier.now l }
{
    earlier.get(l).ok_or(Cause::Operand.at(earlier.len()))
}

// Each rule with two operands asks for both by this; an arm of its own for each is shorter than a closure over the rules.
fn two<K: NumberKind>(
    earlier: &[Record<K>],
    l: usize,
    r: usize,
) -> Result<(&Record<K>, &Record<K>), Fault>
    ensures { lent_two result ≡ rules.two earlier.now l r }
{
    let p = operand(earlier, l)?;
    let q = operand(earlier, r)?;
    Ok((p, q))
}

// Each operation puts its own record into its place, in a function of its own: what one needs on the stack is not set up for another.
#[inline(never)]
fn put_joint<K: NumberKind, J: Joint<K>>(
    records: &mut [Record<K>],
    n: usize,
    joint: J,
    l: usize,
    r: usize,
) -> Result<(), Fault>
    requires { n < length records.old }
    ensures answer { result ≡ accepts (after (rules.two (take n records.old) l r) (λ p. J.Joint.joined (length (take n records.old)) p.0 p.1)) }
    ensures records { records.new ≡ stored records.old n (after (rules.two (take n records.old) l r) (λ p. J.Joint.joined (length (take n records.old)) p.0 p.1)) }
{
    let earlier = &records[..n];
    let (p, q) = two(earlier, l, r)?;
    records[n] = joint.join(p, q, n)?;
    Ok(())
}

#[inline(never)]
fn put_branch<K: NumberKind>(
    records: &mut [Record<K>],
    n: usize,
    s: usize,
    q: usize,
    r: usize,
) -> Result<(), Fault>
    requires { n < length records.old }
    ensures answer { result ≡ accepts (after (rules.all_three (take n records.old) s q r) (λ p. Ok (slope.branch K.NumberKind.model p.0 p.1 p.2))) }
    ensures records { records.new ≡ stored records.old n (after (rules.all_three (take n records.old) s q r) (λ p. Ok (slope.branch K.NumberKind.model p.0 p.1 p.2))) }
{
    let earlier = &records[..n];
    let s = operand(earlier, s)?;
    let (q, r) = two(earlier, q, r)?;
    records[n] = branch(s, q, r);
    Ok(())
}

#[inline(never)]
fn put_curve<K: NumberKind, C: Curve<K>>(
    records: &mut [Record<K>],
    n: usize,
    curve: C,
    l: usize,
) -> Result<(), Fault>
    requires { n < length records.old }
    ensures answer { result ≡ accepts (after (rules.operand (take n records.old) l) (λ p. given (length (take n records.old)) (lift K.NumberKind.model C.Curve.image C.Curve.bend p))) }
    ensures records { records.new ≡ stored records.old n (after (rules.operand (take n records.old) l) (λ p. given (length (take n records.old)) (lift K.NumberKind.model C.Curve.image C.Curve.bend p))) }
{
    records[n] = lift(curve, operand(&records[..n], l)?, n)?;
    Ok(())
}

#[inline(always)]
fn put_swept<K: NumberKind>(
    records: &mut [Record<K>],
    n: usize,
    range: Range,
    centre: i32,
) -> Result<(), Fault>
    requires { n < length records.old }
    ensures answer { result ≡ accepts (rules.swept_range K.NumberKind.model range.lower range.upper centre n) }
    ensures records { records.new ≡ stored records.old n (rules.swept_range K.NumberKind.model range.lower range.upper centre n) }
{
    records[n] = swept_range(range, centre, n)?;
    Ok(())
}

#[inline(always)]
fn put_still<K: NumberKind>(records: &mut [Record<K>], n: usize, range: Range) -> Result<(), Fault>
    requires { n < length records.old }
    ensures answer { result ≡ accepts (rules.still_range K.NumberKind.model range.lower range.upper n) }
    ensures records { records.new ≡ stored records.old n (rules.still_range K.NumberKind.model range.lower range.upper n) }
{
    records[n] = still_range(range, n)?;
    Ok(())
}

#[inline(never)]
fn put_channel<K: NumberKind>(
    b: &ChannelBox,
    records: &mut [Record<K>],
    n: usize,
    c: usize,
) -> Result<(), Fault>
    requires { n < length records.old }
    ensures answer { result ≡ accepts (rules.channel K.NumberKind.model (box_of b.now) c n) }
    ensures records { records.new ≡ stored records.old n (rules.channel K.NumberKind.model (box_of b.now) c n) }
{
    let range = channel_range(b, c, n)?;
    if c == b.swept {
        put_swept(records, n, range, b.centre)?;
    } else {
        put_still(records, n, range)?;
    }
    Ok(())
}

#[inline(never)]
fn put_constant<K: NumberKind>(records: &mut [Record<K>], n: usize, k: i64) -> Result<(), Fault>
    requires { n < length records.old }
    ensures answer { result ≡ accepts (rules.constant K.NumberKind.model k (length (take n records.old))) }
    ensures records { records.new ≡ stored records.old n (rules.constant K.NumberKind.model k (length (take n records.old))) }
{
    let k = count(k, n)?;
    put_still(records, n, Range { lower: k, upper: k })?;
    Ok(())
}

// Every operation's step. The functions below fall back on it where a line is none of theirs, so that each is right for every line; by
// `record_steps` no line comes to it.
#[inline(never)]
fn any_step<K: NumberKind>(
    b: &ChannelBox,
    records: &mut [Record<K>],
    n: usize,
    line: Line,
) -> Result<(), Fault>
    requires { n < length records.old }
    ensures answer { result ≡ accepts (rules.rule K.NumberKind.model (box_of b.now) (take n records.old) line) }
    ensures records { records.new ≡ stored records.old n (rules.rule K.NumberKind.model (box_of b.now) (take n records.old) line) }
{
    match line {
        Line::Channel(c) => put_channel(b, records, n, c),
        Line::Constant(k) => put_constant(records, n, k),
        Line::Sum(l, r) => put_joint(records, n, Sum, l, r),
        Line::Difference(l, r) => put_joint(records, n, Difference, l, r),
        Line::Product(l, r) => put_joint(records, n, Product, l, r),
        Line::Quotient(l, r) => put_joint(records, n, Quotient, l, r),
        Line::Square(l) => put_curve(records, n, Square, l),
        Line::Magnitude(l) => put_curve(records, n, Magnitude, l),
        Line::Greater(l, r) => put_joint(records, n, Greater, l, r),
        Line::Lesser(l, r) => put_joint(records, n, Lesser, l, r),
        Line::Branch(s, q, r) => put_branch(records, n, s, q, r),
    }
}

// The steps of a few operations each; they serve every other line too.
#[inline(always)]
fn first_steps<K: NumberKind>(
    b: &ChannelBox,
    records: &mut [Record<K>],
    n: usize,
    line: Line,
) -> Result<(), Fault>
    requires { n < length records.old }
    ensures answer { result ≡ accepts (rules.rule K.NumberKind.model (box_of b.now) (take n records.old) line) }
    ensures records { records.new ≡ stored records.old n (rules.rule K.NumberKind.model (box_of b.now) (take n records.old) line) }
{
    match line {
        Line::Channel(c) => put_channel(b, records, n, c),
        Line::Constant(k) => put_constant(records, n, k),
        Line::Sum(l, r) => put_joint(records, n, Sum, l, r),
        other => any_step(b, records, n, other),
    }
}

#[inline(always)]
fn second_steps<K: NumberKind>(
    b: &ChannelBox,
    records: &mut [Record<K>],
    n: usize,
    line: Line,
) -> Result<(), Fault>
    requires { n < length records.old }
    ensures answer { result ≡ accepts (rules.rule K.NumberKind.model (box_of b.now) (take n records.old) line) }
    ensures records { records.new ≡ stored records.old n (rules.rule K.NumberKind.model (box_of b.now) (take n records.old) line) }
{
    match line {
        Line::Difference(l, r) => put_joint(records, n, Difference, l, r),
        Line::Product(l, r) => put_joint(records, n, Product, l, r),
        Line::Quotient(l, r) => put_joint(records, n, Quotient, l, r),
        other => any_step(b, records, n, other),
    }
}

#[inline(always)]
fn third_steps<K: NumberKind>(
    b: &ChannelBox,
    records: &mut [Record<K>],
    n: usize,
    line: Line,
) -> Result<(), Fault>
    requires { n < length records.old }
    ensures answer { result ≡ accepts (rules.rule K.NumberKind.model (box_of b.now) (take n records.old) line) }
    ensures records { records.new ≡ stored records.old n (rules.rule K.NumberKind.model (box_of b.now) (take n records.old) line) }
{
    match line {
        Line::Square(l) => put_curve(records, n, Square, l),
        Line::Magnitude(l) => put_curve(records, n, Magnitude, l),
        Line::Greater(l, r) => put_joint(records, n, Greater, l, r),
        other => any_step(b, records, n, other),
    }
}

#[inline(always)]
fn last_steps<K: NumberKind>(
    b: &ChannelBox,
    records: &mut [Record<K>],
    n: usize,
    line: Line,
) -> Result<(), Fault>
    requires { n < length records.old }
    ensures answer { result ≡ accepts (rules.rule K.NumberKind.model (box_of b.now) (take n records.old) line) }
    ensures records { records.new ≡ stored records.old n (rules.rule K.NumberKind.model (box_of b.now) (take n records.old) line) }
{
    match line {
        Line::Lesser(l, r) => put_joint(records, n, Lesser, l, r),
        Line::Branch(s, q, r) => put_branch(records, n, s, q, r),
        other => any_step(b, records, n, other),
    }
}

// By comparisons of the operation's number, and not by one match: its jump through a table takes some processors longer than a sum does.
#[inline(always)]
fn record_steps<K: NumberKind>(
    b: &ChannelBox,
    records: &mut [Record<K>],
    n: usize,
    line: Line,
) -> Result<(), Fault>
    requires { n < length records.old }
    ensures answer { result ≡ accepts (rules.rule K.NumberKind.model (box_of b.now) (take n records.old) line) }
    ensures records { records.new ≡ stored records.old n (rules.rule K.NumberKind.model (box_of b.now) (take n records.old) line) }
{
    let number = line.operation();
    if number < 3 {
        first_steps(b, records, n, line)
    } else if number < 6 {
        second_steps(b, records, n, line)
    } else if number < 9 {
        third_steps(b, records, n, line)
    } else {
        last_steps(b, records, n, line)
    }
}

// Makes the record of line n by those before it, in its place. A refusal leaves all records. Lines that have the records of the rules
// tell the truth at every point of the box.
#[inline(always)]
pub fn record_line<K: NumberKind>(
    b: &ChannelBox,
    records: &mut [Record<K>],
    n: usize,
    line: Line,
) -> Result<(), Fault>
    ensures answer { result ≡ accepts (placed K.NumberKind.model (box_of b.now) records.old n line) }
    ensures records { records.new ≡ stored records.old n (placed K.NumberKind.model (box_of b.now) records.old n line) }
    ensures truth { RecordsTrue K.NumberKind.model }
{
    if n >= records.len() {
        return Err(Cause::Lines.at(0));
    }
    record_steps(b, records, n, line)
}
