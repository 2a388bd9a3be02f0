// The exact product of two marks, and its rounding to a mark.
ghost use Rattle.std.specs.Prelude.{◌≡◌, ◌*ℤ◌, ◌≤ℤ◌, ◌^◌, ◌≤◌, ◌||◌, Some, false, unsigned_abs};

use crate::mark::Sliding;
use crate::rounding::{TOP, cut};

// n units of 2^-48
#[derive(Clone, Copy)]
pub struct Product {
    pub n: i128,
    ghost bounded: { unsigned_abs n ≤ 2 ^ 112 },
}

impl Product {
    ghost use Rattle.sliding.specs.Products as products;

    #[inline(always)]
    pub fn of(a: Sliding, b: Sliding) -> Product
        ensures { result.n ≡ a.units *ℤ b.units }
    {
        Product {
            n: i128::from(a.units) * i128::from(b.units),
        }
    }

    #[inline(always)]
    pub fn lesser(self, other: Product) -> Product
        ensures { result.n ≡ products.lesser self.n other.n }
    {
        if self.n <= other.n { self } else { other }
    }

    #[inline(always)]
    pub fn greater(self, other: Product) -> Product
        ensures { result.n ≡ products.greater self.n other.n }
    {
        if self.n <= other.n { other } else { self }
    }

    // Whether it is beyond −T or T.
    #[cold]
    #[inline(never)]
    fn beyond(self) -> bool
        ensures { result ≡ products.beyond self.n }
    {
        self.n.unsigned_abs() > u128::from(TOP) << 24
    }

    // Whether it or a product that is not less is beyond −T or T. Mostly their upper 64 bits tell that they are not.
    #[inline(always)]
    fn either_beyond(self, other: Product) -> bool
        requires { self.n ≤ℤ other.n }
        ensures { result ≡ products.beyond self.n || products.beyond other.n }
    {
        let least = (self.n >> 64) as i64;
        let greatest = (other.n >> 64) as i64;
        if least >= -65_535 && greatest <= 65_534 {
            return false;
        }
        self.beyond() || other.beyond()
    }

    // The greatest mark not above the product, where it is from −T to T.
    #[inline(always)]
    fn cut(self) -> Sliding
        requires { products.beyond self.n ≡ false }
        ensures { Some result ≡ products.below self.n }
    {
        cut((self.n >> 24) as i64)
    }

    // The same, absent outside −T to T.
    #[inline(always)]
    pub fn below(self) -> Option<Sliding>
        ensures { result ≡ products.below self.n }
    {
        if self.either_beyond(self) {
            return None;
        }
        Some(self.cut())
    }

    // It rounded down and a product that is not less rounded up.
    #[inline(always)]
    pub fn ends(self, other: Product) -> Option<(Sliding, Sliding)>
        requires { self.n ≤ℤ other.n }
        ensures { result ≡ products.ends self.n other.n }
    {
        if self.either_beyond(other) {
            return None;
        }
        let upper = Product { n: -other.n }.cut();
        Some((self.cut(), upper.opposite()))
    }

    // The least mark not below the product, by the mirror image.
    #[inline(always)]
    pub fn above(self) -> Option<Sliding>
        ensures { result ≡ products.above self.n }
    {
        Product { n: -self.n }.below().map(Sliding::opposite)
    }
}
