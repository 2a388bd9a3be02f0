// Records in words.
use kind::NumberKind;
use marks::{Decimal, Units};
use slope::Record;
use span::Span;
use std::fmt;

// A span by its two ends. (Spans and records are printed through a type of this crate's, since they are other crates'.)
#[derive(Clone, Copy)]
struct Ends<K: Units> {
    span: Span<K>,
}

impl<K: Units> fmt::Display for Ends<K> {
    fn fmt<W: fmt::Write>(&self, f: &mut fmt::Formatter<W>) -> fmt::Result {
        let lower = Decimal {
            units: self.span.lower.units(),
        };
        let upper = Decimal {
            units: self.span.upper.units(),
        };
        write!(f, "{lower} {upper}")
    }
}

// What a line of the memory holds.
#[derive(Clone, Copy)]
pub struct Held<K: Units> {
    pub record: Record<K>,
}

impl<K: Units> fmt::Display for Held<K> {
    fn fmt<W: fmt::Write>(&self, f: &mut fmt::Formatter<W>) -> fmt::Result {
        let Record { u, u0, slopes } = self.record;
        write!(f, "U {} U0 {}", Ends { span: u }, Ends { span: u0 })?;
        let Some(slopes) = slopes else {
            return write!(f, " no slopes");
        };
        let a = Ends { span: slopes.a };
        let b = Ends { span: slopes.b };
        let c = Ends { span: slopes.c };
        write!(f, " A {a} B {b} C {c}")
    }
}
