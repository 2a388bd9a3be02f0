// Ratios of units of 2^-24 in 64 bits, held as n × 2^t / d, and their rounding to marks.
ghost use Rattle.std.specs.Prelude.{◌≡◌, ◌^◌, ◌≤◌, pos, unsigned_abs};
ghost use Rattle.std.specs.Int.{int_div_euclid};
ghost use Rattle.sliding.specs.Cut.{Held};

use crate::mark::Sliding;
use crate::rounding::{TOP, below};
use std::num::f64_to_bits_with_nan;

// n × 2^t / d
#[derive(Clone, Copy)]
pub struct Ratio {
    pub n: i64,
    pub d: u32,
    pub t: u32,
    ghost held: { Held n d t },
}

impl Ratio {
    ghost use Rattle.sliding.specs.Ratios as ratios;

    // A guess at `floor`, or at one above it, by 64-bit floats, which divide faster than 64-bit integers. Only its size is promised, since
    // `floor` tests it. The last 9 bits of n, which a float may not hold, weigh little against d. Beside 2^43 + 2^42 + 2^30 a float has 9 bits
    // after the point, so the nearest whole number to n / d stands in the last 40 bits of the sum, greater by 2^39.
    #[inline(always)]
    fn guess(self) -> i64
        ensures { unsigned_abs result ≤ 2 ^ 39 }
    {
        let n = (self.n >> 9) as f64;
        let d = f64::from(self.d);
        let bits = f64_to_bits_with_nan(n / d + 13_195_213_275_136.0);
        (bits % 0x100_0000_0000) as i64 - 0x80_0000_0000
    }

    // n / d rounded down to a whole number, also where it is negative. Whatever the guess is, it is taken only where it leaves a rest from −d
    // to below d, which makes it the floor, or one above it where the rest is negative. A rest that is wrapped is far greater.
    #[inline(always)]
    fn floor(self) -> i64
        ensures { result ≡ int_div_euclid self.n (pos self.d) }
    {
        let d = i64::from(self.d);
        if d < 0x100_0000 {
            let guess = self.guess();
            let rest = self.n.wrapping_sub(guess * d);
            if -d <= rest && rest < d {
                return guess - i64::from(rest < 0);
            }
        }
        self.n.div_euclid(d)
    }

    // The greatest mark not above the ratio. Where t is not 0, n / d has more than 24 bits, so what its floor leaves out is cut in any case.
    pub fn below(self) -> Option<Sliding>
        ensures { result ≡ ratios.below self }
    {
        let Ratio { n, d, t } = self;
        if u128::from(n.unsigned_abs()) > u128::from(TOP >> t) * u128::from(d) {
            return None;
        }
        below(self.floor() << t)
    }
}
