// The marks of a kind in memory.
ghost use Rattle.std.specs.Prelude.{◌≡◌};
ghost use Rattle.crossing.specs.Marks.{fixed_of, sliding_of};
ghost use Rattle.crossing.specs.declared.memory.CMark.{CMark};

use crate::memory::CMark;
use fixed::Fixed;
use kind::NumberKind;
use sliding::Sliding;

// A kind whose marks cross to C and back. What is no mark of the kind means 0.
pub trait Crossing: NumberKind {
    ghost mark_of: { CMark → Self };

    fn of_mark(mark: CMark) -> Self
        ensures { result ≡ mark_of mark };

    fn mark(self) -> CMark
        ensures { mark_of result ≡ self };
}

impl Crossing for Fixed {
    ghost mark_of = { fixed_of };

    fn of_mark(mark: CMark) -> Fixed {
        Fixed::of_count(i64::from(mark.number)).unwrap_or(Fixed::zero())
    }

    fn mark(self) -> CMark {
        CMark {
            number: self.count,
            scale: 0,
        }
    }
}

impl Crossing for Sliding {
    ghost mark_of = { sliding_of };

    fn of_mark(mark: CMark) -> Sliding {
        Sliding::of_parts(mark.number, mark.scale).unwrap_or(Sliding::zero())
    }

    fn mark(self) -> CMark {
        let (number, scale) = self.parts();
        CMark { number, scale }
    }
}
