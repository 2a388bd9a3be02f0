// The sliding kind keeps the rules of a kind.
ghost use Rattle.std.specs.Prelude.{◌≡◌, ◌*◌, ◌^◌, ◌≤◌, pos, ◌*ℤ◌, ◌<ℤ◌, Some, unsigned_abs};
ghost use Rattle.kind.specs.Model as kinds;
ghost use Rattle.sliding.specs.Cut.{Stands};
ghost use Rattle.sliding.specs.Grid.{sliding_grid, sliding_model, stored_as};
ghost use Rattle.sliding.specs.Marks.{SlidingMarks};
ghost use Rattle.sliding.specs.Rules.{sliding_rules};

use crate::mark::Sliding;
use crate::product::Product;
use crate::ratio::Ratio;
use crate::rounding::{above, below, scale_of};
use kind::NumberKind;

impl Sliding {
    // The mark with this stored form, if it is one. The marks of this kind are m × 2^e for m of at most 24 bits and e
    // from −24 to 8, and no others; each has one stored form.
    #[tactic(auto, using(crate::proofs::Stored::sliding_marks))]
    pub fn of_parts(mantissa: i32, scale: u32) -> Option<Sliding>
        ensures value { result ≡ stored_as mantissa scale }
        ensures marks { SlidingMarks }
    {
        let size = mantissa.unsigned_abs();
        if size > 16_777_215 || scale > 32 {
            return None;
        }
        if scale > 0 && size < 8_388_608 {
            return None;
        }
        Some(Sliding {
            units: i64::from(mantissa) << scale,
        })
    }

    // The stored form of the mark: its mantissa and its scale.
    pub fn parts(self) -> (i32, u32)
        ensures { stored_as result.0 result.1 ≡ Some self }
    {
        let scale = scale_of(self.units);
        ((self.units >> scale) as i32, scale)
    }

    // The mark in whole 1/16,777,216, exactly.
    pub fn units(self) -> i64
        ensures value { result ≡ sliding_grid.size self }
        ensures bound { unsigned_abs result ≤ 2 ^ 56 }
    {
        self.units
    }

    #[inline(always)]
    pub(crate) fn opposite(self) -> Sliding
        ensures { result ≡ sliding_grid.minus self }
    {
        Sliding { units: -self.units }
    }
}

// The quotient of a by a positive b.
fn over(a: Sliding, b: Sliding) -> Ratio
    requires { pos 0 <ℤ b.units }
    ensures { Stands (a.units *ℤ pos 16777216) (unsigned_abs b.units) result.n result.d result.t }
{
    let (m, s) = a.parts();
    let (by, r) = b.parts();
    let n = i64::from(m);
    let d = by.unsigned_abs();
    if r > s + 24 {
        return Ratio {
            n,
            d: d << (r - s - 24),
            t: 0,
        };
    }
    let j = s + 24 - r;
    let t = j.saturating_sub(38);
    Ratio {
        n: n << (j - t),
        d,
        t,
    }
}

// Absent for the divisor 0.
fn quotient(a: Sliding, b: Sliding) -> Option<Sliding>
    ensures { result ≡ kinds.quotient_below sliding_model a b }
{
    if b.units == 0 {
        return None;
    }
    if b.units < 0 {
        return over(a.opposite(), b.opposite()).below();
    }
    over(a, b).below()
}

// Each operation is a line or a few, as in the fixed kind: its exact result, rounded. A trait between the two and `NumberKind` would be
// longer.
impl NumberKind for Sliding {
    ghost model = { sliding_model };

    ghost rules = { sliding_rules };

    fn zero() -> Sliding {
        Sliding { units: 0 }
    }

    fn one() -> Sliding {
        Sliding { units: 16_777_216 }
    }

    #[inline(always)]
    #[tactic(auto, using(crate::proofs::Ops::le_value))]
    fn at_most(self, other: Sliding) -> bool {
        self.units <= other.units
    }

    #[inline(always)]
    fn negated(self) -> Sliding {
        self.opposite()
    }

    #[inline(always)]
    fn sum_below(self, other: Sliding) -> Option<Sliding> {
        below(self.units + other.units)
    }

    #[inline(always)]
    fn sum_above(self, other: Sliding) -> Option<Sliding> {
        above(self.units + other.units)
    }

    #[inline(always)]
    #[tactic(auto, using(crate::proofs::Products::is_product_below))]
    fn product_below(self, other: Sliding) -> Option<Sliding> {
        Product::of(self, other).below()
    }

    #[inline(always)]
    #[tactic(auto, using(crate::proofs::Products::is_product_above))]
    fn product_above(self, other: Sliding) -> Option<Sliding> {
        Product::of(self, other).above()
    }

    #[inline(always)]
    fn product_ends(a: Sliding, b: Sliding, c: Sliding, d: Sliding) -> Option<(Sliding, Sliding)> {
        let ac = Product::of(a, c);
        let ad = Product::of(a, d);
        let bc = Product::of(b, c);
        let bd = Product::of(b, d);
        let least = ac.lesser(ad).lesser(bc.lesser(bd));
        let greatest = ac.greater(ad).greater(bc.greater(bd));
        least.ends(greatest)
    }

    fn quotient_below(self, other: Sliding) -> Option<Sliding> {
        quotient(self, other)
    }

    fn quotient_above(self, other: Sliding) -> Option<Sliding> {
        quotient(self.opposite(), other).map(Sliding::opposite)
    }

    fn count_below(n: i32) -> Option<Sliding> {
        below(i64::from(n) * 256)
    }

    fn count_above(n: i32) -> Option<Sliding> {
        above(i64::from(n) * 256)
    }

    #[tactic(auto, using(crate::proofs::Ops::floor_value))]
    fn floor(self) -> i64 {
        self.units >> 8
    }

    fn ceiling(self) -> i64 {
        -(-self.units >> 8)
    }
}
