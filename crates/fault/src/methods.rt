// What a cause gives: its number, and the refusal at a place.
ghost use Rattle.std.specs.Prelude.{◌≡◌};
ghost use Rattle.fault.specs.Causes.{number};

use crate::fault::{Cause, Fault};

impl Cause {
    // The refusal for this cause at a place.
    pub fn at(self, place: usize) -> Fault
        ensures { result ≡ record { cause = self; place = place } }
    {
        Fault { cause: self, place }
    }

    // The number of this refusal. (A method by that name says more than `u32::from`; there is no way back, since two share 16.)
    pub fn number(self) -> u32
        ensures { result ≡ number self }
    {
        match self {
            Cause::Channels => 1,
            Cause::NoChannel => 2,
            Cause::Number => 3,
            Cause::Order => 4,
            Cause::Centre => 5,
            Cause::Lines => 6,
            Cause::Full => 7,
            Cause::Operand => 8,
            Cause::Divisor => 9,
            Cause::Absent => 10,
            Cause::NoLine => 11,
            Cause::NotEmpty => 12,
            Cause::Early => 13,
            Cause::Form => 14,
            Cause::Operation => 15,
            Cause::Count => 16,
            Cause::Left => 16,
            Cause::Room => 17,
        }
    }
}
