// The kinds that the program has, by one common unit.
ghost use Rattle.std.proofs.Common.{lit<};
ghost use Rattle.exact.specs.Fraction.{◌≈◌, ratio};

use fixed::Fixed;
use kind::NumberKind;
use sliding::Sliding;

// A kind whose marks are whole numbers of 1/16,777,216.
pub trait Units: NumberKind {
    fn units(self) -> i64
        ensures { Self.NumberKind.model.value self ≈ ratio result 16777216 (lit< tt) };
}

impl Units for Fixed {
    fn units(self) -> i64 {
        i64::from(self.count) * 256
    }
}

impl Units for Sliding {
    fn units(self) -> i64 {
        Sliding::units(self)
    }
}
