// Exact decimals.
use std::fmt;

// How many units make 1.
const ONE: u64 = 16_777_216;

// A number of 1/16,777,216.
#[derive(Clone, Copy, Debug, PartialEq, Eq)]
pub struct Decimal {
    pub units: i64,
}

// The exact decimal, with no trailing zeros.
impl fmt::Display for Decimal {
    fn fmt<W: fmt::Write>(&self, f: &mut fmt::Formatter<W>) -> fmt::Result {
        let size = self.units.unsigned_abs();
        if self.units < 0 {
            write!(f, "-")?;
        }
        let whole = size / ONE;
        write!(f, "{whole}")?;
        let mut rest = size % ONE;
        if rest > 0 {
            write!(f, ".")?;
        }
        // Each digit doubles the power of two that divides the rest. At 2^24 nothing is left; 0 has 64 trailing zeros. (An iterator over
        // the digits would have to carry the rest by hand too.)
        for _ in rest.trailing_zeros()..24 {
            let digit = rest * 10 / ONE;
            write!(f, "{digit}")?;
            rest = rest * 10 % ONE;
        }
        Ok(())
    }
}
