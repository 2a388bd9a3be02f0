// The fixed kind keeps the rules of a kind; its arithmetic stays in 64 bits, and that of sums in 32.
ghost use Rattle.std.specs.Prelude.{◌≡◌};
ghost use Rattle.exact.specs.Fraction.{◌*F◌};
ghost use Rattle.kind.specs.Model as kinds;
ghost use Rattle.fixed.specs.Grid.{fixed_grid, fixed_model, mark_of};
ghost use Rattle.fixed.specs.Marks.{FixedMarks};
ghost use Rattle.fixed.specs.Ratios as ratios;
ghost use Rattle.fixed.specs.Rules.{fixed_rules};

use crate::mark::Fixed;
use crate::ratio::{Product, Ratio};
use kind::NumberKind;

// The greatest count of a mark, in a mark's own 32 bits.
const MOST: i32 = 1_073_741_823;

impl Fixed {
    // The mark of a number of counts. The marks of this kind are m/65,536 for each count m, and no others.
    #[tactic(auto, using(crate::specs::Rules::fixed_marks))]
    pub fn of_count(n: i64) -> Option<Fixed>
        ensures value { result ≡ mark_of n }
        ensures marks { FixedMarks }
    {
        whole(i32::try_from(n).ok()?)
    }

    #[inline(always)]
    pub(crate) fn opposite(self) -> Fixed
        ensures { result ≡ fixed_grid.minus self }
    {
        Fixed { count: -self.count }
    }
}

// The mark of n counts. Nothing is rounded, so it is also the one below and the one above.
#[inline(always)]
fn whole(n: i32) -> Option<Fixed>
    ensures value { result ≡ mark_of n }
    ensures below { result ≡ kinds.count_below fixed_model n }
    ensures above { result ≡ kinds.count_above fixed_model n }
{
    if n < -MOST || n > MOST {
        return None;
    }
    Some(Fixed { count: n })
}

// The sum of two marks is a number of counts, which 32 bits hold.
#[inline(always)]
fn sum(a: Fixed, b: Fixed) -> Option<Fixed>
    ensures below { result ≡ kinds.sum_below fixed_model a b }
    ensures above { result ≡ kinds.sum_above fixed_model a b }
{
    whole(a.count + b.count)
}

#[inline(always)]
fn product(a: Fixed, b: Fixed) -> Product
    ensures { ratios.product result ≡ fixed_model.value a *F fixed_model.value b }
{
    Product {
        n: i64::from(a.count) * i64::from(b.count),
    }
}

// Absent for the divisor 0.
#[inline(always)]
fn quotient(a: Fixed, b: Fixed) -> Option<Ratio>
    ensures below { ratios.maybe_below result ≡ kinds.quotient_below fixed_model a b }
    ensures above { ratios.maybe_above result ≡ kinds.quotient_above fixed_model a b }
{
    if b.count == 0 {
        return None;
    }
    let n = if b.count < 0 { -a.count } else { a.count };
    let d = b.count.unsigned_abs();
    Some(Ratio { n, d })
}

// Each operation is a line, as in the sliding kind: its exact result, rounded. A trait between the two and `NumberKind` would be longer.
impl NumberKind for Fixed {
    ghost model = { fixed_model };

    ghost rules = { fixed_rules };

    #[inline(always)]
    fn zero() -> Fixed {
        Fixed { count: 0 }
    }

    #[inline(always)]
    fn one() -> Fixed {
        Fixed { count: 65536 }
    }

    #[inline(always)]
    #[tactic(auto, using(crate::proofs::Ratios::le_count))]
    fn at_most(self, other: Fixed) -> bool {
        self.count <= other.count
    }

    #[inline(always)]
    fn negated(self) -> Fixed {
        self.opposite()
    }

    #[inline(always)]
    fn sum_below(self, other: Fixed) -> Option<Fixed> {
        sum(self, other)
    }

    #[inline(always)]
    fn sum_above(self, other: Fixed) -> Option<Fixed> {
        sum(self, other)
    }

    #[inline(always)]
    fn product_below(self, other: Fixed) -> Option<Fixed> {
        product(self, other).below()
    }

    #[inline(always)]
    fn product_above(self, other: Fixed) -> Option<Fixed> {
        product(self, other).above()
    }

    // The four products are compared before two of them are rounded.
    #[inline(always)]
    fn product_ends(a: Fixed, b: Fixed, c: Fixed, d: Fixed) -> Option<(Fixed, Fixed)> {
        let (ac, ad, bc, bd) = (product(a, c), product(a, d), product(b, c), product(b, d));
        let least = ac.lesser(ad).lesser(bc.lesser(bd));
        let greatest = ac.greater(ad).greater(bc.greater(bd));
        Product::ends(least, greatest)
    }

    #[inline(always)]
    fn quotient_below(self, other: Fixed) -> Option<Fixed> {
        quotient(self, other)?.below()
    }

    #[inline(always)]
    fn quotient_above(self, other: Fixed) -> Option<Fixed> {
        quotient(self, other)?.above()
    }

    #[inline(always)]
    fn count_below(n: i32) -> Option<Fixed> {
        whole(n)
    }

    #[inline(always)]
    fn count_above(n: i32) -> Option<Fixed> {
        whole(n)
    }

    #[inline(always)]
    #[tactic(auto, using(crate::proofs::Ratios::floor_of_count))]
    fn floor(self) -> i64 {
        i64::from(self.count)
    }

    #[inline(always)]
    #[tactic(auto, using(crate::proofs::Ratios::ceiling_of_count))]
    fn ceiling(self) -> i64 {
        i64::from(self.count)
    }
}
