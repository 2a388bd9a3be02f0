// Spans and records in memory.
ghost use Rattle.std.specs.Prelude.{◌≡◌};
ghost use Rattle.crossing.specs.Records.{record_of, slopes_of, span_of};

use crate::marks::Crossing;
use crate::means::Means;
use crate::memory::{CMark, CRecord, CSpan};
use slope::{Record, Slopes};
use span::Span;

impl<K: Crossing> Means<Span<K>> for CSpan {
    ghost means = { span_of K.Crossing.mark_of };

    fn meaning(self) -> Span<K> {
        Span {
            lower: K::of_mark(self.lower),
            upper: K::of_mark(self.upper),
        }
    }

    fn form(span: Span<K>) -> CSpan {
        CSpan {
            lower: span.lower.mark(),
            upper: span.upper.mark(),
        }
    }
}

// What stands in memory for slopes that are not there.
const NOUGHT: CSpan = CSpan {
    lower: CMark {
        number: 0,
        scale: 0,
    },
    upper: CMark {
        number: 0,
        scale: 0,
    },
};

// The slopes, if there are any.
fn slopes<K: Crossing>(memory: CRecord) -> Option<Slopes<K>>
    ensures { result ≡ slopes_of K.Crossing.mark_of memory }
{
    if memory.slopes == 0 {
        return None;
    }
    Some(Slopes {
        a: memory.a.meaning(),
        b: memory.b.meaning(),
        c: memory.c.meaning(),
    })
}

impl<K: Crossing> Means<Record<K>> for CRecord {
    ghost means = { record_of K.Crossing.mark_of };

    fn meaning(self) -> Record<K> {
        Record {
            u: self.u.meaning(),
            u0: self.u0.meaning(),
            slopes: slopes(self),
        }
    }

    fn form(record: Record<K>) -> CRecord {
        let u = CSpan::form(record.u);
        let u0 = CSpan::form(record.u0);
        let Some(slopes) = record.slopes else {
            return CRecord {
                u,
                u0,
                a: NOUGHT,
                b: NOUGHT,
                c: NOUGHT,
                slopes: 0,
            };
        };
        CRecord {
            u,
            u0,
            a: CSpan::form(slopes.a),
            b: CSpan::form(slopes.b),
            c: CSpan::form(slopes.c),
            slopes: 1,
        }
    }
}
