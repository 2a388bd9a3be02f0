// The odd kind keeps the rules of a kind.
ghost use Rattle.std.specs.Prelude.{◌≡◌, ◌*ℤ◌};
ghost use Rattle.exact.specs.Floor.{ceiling, floor};
ghost use Rattle.kind.specs.Model as kinds;
ghost use Rattle.odd.specs.Grid.{sign_model, sign_of};
ghost use Rattle.odd.specs.Grid as signs;
ghost use Rattle.odd.specs.Signs.{sign_rules};

use crate::sign::Sign;
use kind::NumberKind;

// (This and the next are private; a `From` and a `TryFrom` with their contracts would be longer, and public.)
fn whole(s: Sign) -> i64
    ensures { result ≡ signs.whole s }
{
    s as i64
}

// The mark of a whole number, if it is one.
fn marked(n: i64) -> Option<Sign>
    ensures { result ≡ sign_of n }
{
    match n {
        -1 => Some(Sign::Minus),
        0 => Some(Sign::Nought),
        1 => Some(Sign::Plus),
        _ => None,
    }
}

fn opposite(s: Sign) -> Sign
    ensures { result ≡ signs.negative s }
{
    match s {
        Sign::Minus => Sign::Plus,
        Sign::Nought => Sign::Nought,
        Sign::Plus => Sign::Minus,
    }
}

// On whole numbers both directions of rounding agree.
fn sum(a: Sign, b: Sign) -> Option<Sign>
    ensures below { result ≡ kinds.sum_below sign_model a b }
    ensures above { result ≡ kinds.sum_above sign_model a b }
{
    marked(whole(a) + whole(b))
}

fn times(a: Sign, b: Sign) -> i64
    ensures { result ≡ signs.whole a *ℤ signs.whole b }
{
    whole(a) * whole(b)
}

fn product(a: Sign, b: Sign) -> Option<Sign>
    ensures below { result ≡ kinds.product_below sign_model a b }
    ensures above { result ≡ kinds.product_above sign_model a b }
{
    marked(times(a, b))
}

// The quotient by −1 and by 1 is the product; by 0 there is none.
fn quotient(a: Sign, b: Sign) -> Option<Sign>
    ensures below { result ≡ kinds.quotient_below sign_model a b }
    ensures above { result ≡ kinds.quotient_above sign_model a b }
{
    match b {
        Sign::Minus => Some(opposite(a)),
        Sign::Nought => None,
        Sign::Plus => Some(a),
    }
}

// A mark is a whole number of 1/65,536.
fn counts(a: Sign) -> i64
    ensures below { result ≡ floor 65536 (sign_model.value a) }
    ensures above { result ≡ ceiling 65536 (sign_model.value a) }
{
    whole(a) * 65536
}

// The greatest mark not above n/65,536.
fn rounded(n: i64) -> Option<Sign>
    ensures { result ≡ kinds.count_below sign_model n }
{
    if n.unsigned_abs() > 65536 {
        return None;
    }
    marked(n.div_euclid(65536))
}

// Each operation is a line, as in the other kinds; one function serves both directions.
impl NumberKind for Sign {
    ghost model = { sign_model };

    ghost rules = { sign_rules };

    fn zero() -> Sign {
        Sign::Nought
    }

    fn one() -> Sign {
        Sign::Plus
    }

    #[tactic(auto, using(crate::proofs::Computed::in_order))]
    fn at_most(self, other: Sign) -> bool {
        self <= other
    }

    fn negated(self) -> Sign {
        opposite(self)
    }

    fn sum_below(self, other: Sign) -> Option<Sign> {
        sum(self, other)
    }

    fn sum_above(self, other: Sign) -> Option<Sign> {
        sum(self, other)
    }

    fn product_below(self, other: Sign) -> Option<Sign> {
        product(self, other)
    }

    fn product_above(self, other: Sign) -> Option<Sign> {
        product(self, other)
    }

    fn product_ends(a: Sign, b: Sign, c: Sign, d: Sign) -> Option<(Sign, Sign)> {
        let (ac, ad, bc, bd) = (times(a, c), times(a, d), times(b, c), times(b, d));
        let least = ac.min(ad).min(bc.min(bd));
        let greatest = ac.max(ad).max(bc.max(bd));
        marked(least).zip(marked(greatest))
    }

    fn quotient_below(self, other: Sign) -> Option<Sign> {
        quotient(self, other)
    }

    fn quotient_above(self, other: Sign) -> Option<Sign> {
        quotient(self, other)
    }

    fn count_below(n: i32) -> Option<Sign> {
        rounded(i64::from(n))
    }

    fn count_above(n: i32) -> Option<Sign> {
        rounded(-i64::from(n)).map(opposite)
    }

    fn floor(self) -> i64 {
        counts(self)
    }

    fn ceiling(self) -> i64 {
        counts(self)
    }
}
