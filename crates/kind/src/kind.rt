// The trait of number kinds.
ghost use Rattle.std.specs.Prelude.{◌≡◌};
ghost use Rattle.exact.specs.Floor.{floor, ceiling};
ghost use Rattle.kind.specs.Model.{Model, Rules};
ghost use Rattle.kind.specs.Model as kinds;

// A number kind supplies marks, the numbers that an end of a span may have: they are the values of the type. `model` is
// their meaning, and `rules` is what each kind owes. Code that is written for any kind knows nothing else about it. Rounding
// below and above are functions of their own, each with its contract, and not one with a direction: so this project has it.
pub trait NumberKind: Copy {
    ghost model: { Model Self };

    fn zero() -> Self
        ensures { result ≡ model.nought };

    fn one() -> Self
        ensures { result ≡ model.unit };

    fn at_most(self, other: Self) -> bool
        ensures { result ≡ kinds.at_most model self other };

    fn negated(self) -> Self
        ensures { result ≡ model.opposite self };

    fn sum_below(self, other: Self) -> Option<Self>
        ensures { result ≡ kinds.sum_below model self other };

    fn sum_above(self, other: Self) -> Option<Self>
        ensures { result ≡ kinds.sum_above model self other };

    fn product_below(self, other: Self) -> Option<Self>
        ensures { result ≡ kinds.product_below model self other };

    fn product_above(self, other: Self) -> Option<Self>
        ensures { result ≡ kinds.product_above model self other };

    // Of the products of a and b with c and d the least, rounded down, and the greatest, rounded up: the ends of a product of spans.
    fn product_ends(a: Self, b: Self, c: Self, d: Self) -> Option<(Self, Self)>
        ensures { result ≡ kinds.product_ends model a b c d };

    fn quotient_below(self, other: Self) -> Option<Self>
        ensures { result ≡ kinds.quotient_below model self other };

    fn quotient_above(self, other: Self) -> Option<Self>
        ensures { result ≡ kinds.quotient_above model self other };

    // The mark below and above n/65,536.
    fn count_below(n: i32) -> Option<Self>
        ensures { result ≡ kinds.count_below model n };

    fn count_above(n: i32) -> Option<Self>
        ensures { result ≡ kinds.count_above model n };

    // The mark in whole 1/65,536, outward.
    fn floor(self) -> i64
        ensures { result ≡ floor 65536 (model.value self) };

    fn ceiling(self) -> i64
        ensures { result ≡ ceiling 65536 (model.value self) };

    ghost rules: { Rules model };
}
