// What a report answers.
use std::fmt;

#[derive(Clone, Copy, PartialEq, Eq, Debug)]
pub struct Report {
    pub middle: i64,
    pub margin: i64,
}

impl fmt::Display for Report {
    fn fmt<W: fmt::Write>(&self, f: &mut fmt::Formatter<W>) -> fmt::Result {
        let Report { middle, margin } = *self;
        write!(f, "middle {middle} margin {margin}")
    }
}
