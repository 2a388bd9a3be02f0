// Causes and refusals in words.
use crate::fault::{Cause, Fault};
use std::fmt;

impl fmt::Display for Cause {
    fn fmt<W: fmt::Write>(&self, f: &mut fmt::Formatter<W>) -> fmt::Result {
        f.write_str(match self {
            Cause::Channels => "not 1 to 8 channels, or lists of unequal length",
            Cause::NoChannel => "no such channel",
            Cause::Number => "a number beyond the counts",
            Cause::Order => "lower end above upper end",
            Cause::Centre => "centre outside its range",
            Cause::Lines => "fewer than 64 lines lent",
            Cause::Full => "64 lines held",
            Cause::Operand => "operand not an earlier line",
            Cause::Divisor => "divisor holds 0",
            Cause::Absent => "the result has no span",
            Cause::NoLine => "no such line",
            Cause::NotEmpty => "lines are held",
            Cause::Early => "bytes end too early",
            Cause::Form => "number not shortest, or too large",
            Cause::Operation => "operation above 10",
            Cause::Count => "not 1 to 64 lines",
            Cause::Left => "bytes left over",
            Cause::Room => "too few bytes to write to",
        })
    }
}

// The number of a refusal, its place and its cause in words.
impl fmt::Display for Fault {
    fn fmt<W: fmt::Write>(&self, f: &mut fmt::Formatter<W>) -> fmt::Result {
        let Fault { cause, place } = *self;
        let number = cause.number();
        write!(f, "refused {number} at {place} ({cause})")
    }
}
