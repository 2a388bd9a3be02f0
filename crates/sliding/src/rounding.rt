// Rounding of whole numbers of units to marks: the bits beyond 24 are cleared, by the count of leading zeros.
ghost use Rattle.std.specs.Prelude.{◌≡◌, ◌^◌, ◌<◌, ◌≤◌, Some, unsigned_abs};
ghost use Rattle.sliding.specs.Cut.{Scale};
ghost use Rattle.sliding.specs.Whole as whole;

use crate::mark::Sliding;

// The greatest mark in units.
pub const TOP: u64 = 16_777_215 << 32;

// How many bits k has beyond 24. With its lowest 24 bits set, it has no fewer than 24 bits.
#[inline(always)]
#[tactic(auto, using(crate::proofs::Scales::scale_is))]
pub fn scale_of(k: i64) -> u32
    requires { unsigned_abs k < 2 ^ 63 }
    ensures { Scale k result }
{
    40 - (k.unsigned_abs() | 0xFF_FFFF).leading_zeros()
}

// The mask at 40 − s, which is a count of leading zeros, clears the lowest s bits.
static MASKS: [i64; 41] = [
    -1 << 40,
    -1 << 39,
    -1 << 38,
    -1 << 37,
    -1 << 36,
    -1 << 35,
    -1 << 34,
    -1 << 33,
    -1 << 32,
    -1 << 31,
    -1 << 30,
    -1 << 29,
    -1 << 28,
    -1 << 27,
    -1 << 26,
    -1 << 25,
    -1 << 24,
    -1 << 23,
    -1 << 22,
    -1 << 21,
    -1 << 20,
    -1 << 19,
    -1 << 18,
    -1 << 17,
    -1 << 16,
    -1 << 15,
    -1 << 14,
    -1 << 13,
    -1 << 12,
    -1 << 11,
    -1 << 10,
    -1 << 9,
    -1 << 8,
    -1 << 7,
    -1 << 6,
    -1 << 5,
    -1 << 4,
    -1 << 3,
    -1 << 2,
    -1 << 1,
    -1 << 0,
];

// The greatest mark not above k units. A negative k may be cut to −2^24 × 2^s, which is −2^23 × 2^(s + 1).
#[inline(always)]
pub fn cut(k: i64) -> Sliding
    requires { unsigned_abs k ≤ 72057589742960640 }
    ensures { Some result ≡ whole.below k }
{
    Sliding {
        units: k & MASKS[(40 - scale_of(k)) as usize],
    }
}

// The same, absent outside −T to T.
#[inline(always)]
pub fn below(k: i64) -> Option<Sliding>
    ensures { result ≡ whole.below k }
{
    if k.unsigned_abs() > TOP {
        return None;
    }
    Some(cut(k))
}

// The least mark not below k units, by the mirror image.
#[inline(always)]
pub fn above(k: i64) -> Option<Sliding>
    requires { unsigned_abs k < 2 ^ 63 }
    ensures { result ≡ whole.above k }
{
    below(-k).map(Sliding::opposite)
}
