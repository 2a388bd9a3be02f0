// The forms of a report, each apart.
ghost use Rattle.std.specs.Prelude.{◌≡◌};
ghost use Rattle.boxes.specs.Stored.{box_of};
ghost use Rattle.report.specs.Reports as reports;

use boxes::{ChannelBox, Range};
use kind::NumberKind;
use slope::Record;
use span::Span;

// A range less its centre.
fn about<K: NumberKind>(range: Range, centre: i32) -> Option<Span<K>>
    ensures { result ≡ reports.about K.NumberKind.model range.lower range.upper centre }
{
    let x = Span::of_counts(range.lower, range.upper)?;
    let x0 = Span::of_counts(centre, centre)?;
    x.difference(x0)
}

// D = X − X0, the swept range less its centre.
pub fn distance<K: NumberKind>(b: &ChannelBox) -> Option<Span<K>>
    ensures { result ≡ reports.distance K.NumberKind.model (box_of b.now) }
{
    about(b.ranges[b.swept], b.centre)
}

// U0 + A × D.
pub fn first_form<K: NumberKind>(r: &Record<K>, d: Span<K>) -> Option<Span<K>>
    ensures { result ≡ reports.first_form K.NumberKind.model r.now d }
{
    let s = r.slopes?;
    r.u0.sum(s.a.product(d)?)
}

// U0 + (B × D + C × (D × D)).
pub fn second_form<K: NumberKind>(r: &Record<K>, d: Span<K>) -> Option<Span<K>>
    ensures { result ≡ reports.second_form K.NumberKind.model r.now d }
{
    let s = r.slopes?;
    let bd = s.b.product(d)?;
    let dd = d.product(d)?;
    let cdd = s.c.product(dd)?;
    r.u0.sum(bd.sum(cdd)?)
}

// A form that is absent is left out.
pub fn narrowed<K: NumberKind>(s: Span<K>, form: Option<Span<K>>) -> Span<K>
    ensures { result ≡ reports.narrowed K.NumberKind.model s form }
{
    form.map_or(s, |t| s.meet(t))
}
