// The exact product and the exact quotient of two marks, and their rounding to marks in 64 bits.
ghost use Rattle.std.specs.Prelude.{◌≡◌, ◌*◌, ◌^◌, ◌<◌, ◌≤◌, ◌≤ℤ◌, Some, unsigned_abs};

use crate::mark::Fixed;
use std::num::f64_to_bits_with_nan;

// The greatest count of a mark.
pub const TOP: i64 = 1_073_741_823;

// n/65,536 counts, where n is the product of two counts.
#[derive(Clone, Copy)]
pub struct Product {
    pub n: i64,
    ghost bounded: { unsigned_abs n ≤ 2 ^ 60 },
}

impl Product {
    ghost use Rattle.exact.specs.Fraction.{max_F, min_F};
    ghost use Rattle.fixed.specs.Ratios as ratios;

    // The lesser and the greater of two products: what is chosen is a value, and no way through the code.
    #[inline(always)]
    #[tactic(auto, using(crate::proofs::Ratios::min_product))]
    pub fn lesser(self, other: Product) -> Product
        ensures value { ratios.product result ≡ min_F (ratios.product self) (ratios.product other) }
        ensures least { (result.n ≤ℤ self.n) × (result.n ≤ℤ other.n) }
    {
        if self.n <= other.n { self } else { other }
    }

    #[inline(always)]
    #[tactic(auto, using(crate::proofs::Ratios::max_product))]
    pub fn greater(self, other: Product) -> Product
        ensures value { ratios.product result ≡ max_F (ratios.product self) (ratios.product other) }
        ensures greatest { (self.n ≤ℤ result.n) × (other.n ≤ℤ result.n) }
    {
        if self.n > other.n { self } else { other }
    }

    // The greatest mark not above a product from −T to T. The shift is the floor, also where n is negative.
    #[inline(always)]
    fn floor(self) -> Fixed
        requires { unsigned_abs self.n ≤ 1073741823 * 65536 }
        ensures { Some result ≡ ratios.product_below self }
    {
        Fixed {
            count: (self.n >> 16) as i32,
        }
    }

    // The greatest mark not above any product.
    #[inline(always)]
    pub fn below(self) -> Option<Fixed>
        ensures { result ≡ ratios.product_below self }
    {
        if self.n < -TOP * 65536 || self.n > TOP * 65536 {
            return None;
        }
        Some(self.floor())
    }

    // The least mark not below the product, by the mirror image.
    #[inline(always)]
    pub fn above(self) -> Option<Fixed>
        ensures { result ≡ ratios.product_above self }
    {
        Product { n: -self.n }.below().map(Fixed::opposite)
    }

    // The least product rounded down and the greatest rounded up. As they are in order, each is tested at one end of the range alone.
    #[inline(always)]
    pub fn ends(least: Product, greatest: Product) -> Option<(Fixed, Fixed)>
        requires { least.n ≤ℤ greatest.n }
        ensures { result ≡ ratios.product_ends least greatest }
    {
        if least.n < -TOP * 65536 || greatest.n > TOP * 65536 {
            return None;
        }
        Some((least.floor(), Product { n: -greatest.n }.floor().opposite()))
    }
}

// n/d for counts n and d, which is the quotient of their marks too.
#[derive(Clone, Copy)]
pub struct Ratio {
    pub n: i32,
    pub d: u32,
    ghost positive: { 0 < d },
    ghost bounded: { unsigned_abs n < 2 ^ 30 },
}

impl Ratio {
    ghost use Rattle.fixed.specs.Ratios as ratios;

    // A guess at the whole number nearest to 65,536·n / d, by 64-bit floats, which divide faster than 64-bit integers. Only its size is
    // promised, since `below` tests it. The sum with 2^52 + 2^51 + 2^30 is rounded to a whole number, and its last 31 bits hold the guess,
    // greater by 2^30.
    #[inline(always)]
    fn guess(self) -> i64
        ensures { unsigned_abs result ≤ 2 ^ 30 }
    {
        let n = f64::from(self.n) * 65_536.0;
        let d = f64::from(self.d);
        let bits = f64_to_bits_with_nan(n / d + 6_755_400_514_797_568.0);
        (bits % 0x8000_0000) as i64 - 0x4000_0000
    }

    // The greatest mark not above the ratio. Whatever the guess is, where it leaves a rest from −d to below d, it is the floor or one more,
    // and the sign of the rest says which. With such a guess between −TOP and TOP the ratio is from −TOP to TOP, so the floor is a mark.
    #[inline(always)]
    pub fn below(self) -> Option<Fixed>
        ensures { result ≡ ratios.below self }
    {
        let n = i64::from(self.n) * 65536;
        let d = i64::from(self.d);
        let guess = self.guess();
        let rest = n - guess * d;
        if -TOP < guess && guess < TOP && -d <= rest && rest < d {
            return Some(Fixed {
                count: (guess + (rest >> 63)) as i32,
            });
        }
        self.divided()
    }

    // The same by whole numbers, where the guess is of no use.
    #[inline(never)]
    fn divided(self) -> Option<Fixed>
        ensures { result ≡ ratios.below self }
    {
        let n = i64::from(self.n) * 65536;
        let d = i64::from(self.d);
        if n.abs() > TOP * d {
            return None;
        }
        Some(Fixed {
            count: n.div_euclid(d) as i32,
        })
    }

    // The least mark not below the ratio, by the mirror image.
    #[inline(always)]
    pub fn above(self) -> Option<Fixed>
        ensures { result ≡ ratios.above self }
    {
        let Ratio { n, d } = self;
        Ratio { n: -n, d }.below().map(Fixed::opposite)
    }
}
