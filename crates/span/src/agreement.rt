// What holds of the operations on spans for every kind.
ghost use Rattle.std.specs.Prelude.{◌≡◌};
ghost use Rattle.span.specs.Nested.{Nested};
ghost use Rattle.span.specs.Only.{Only};

use kind::NumberKind;

// How many operations answer a narrowest span: sum, difference, product, quotient, square, magnitude, hull, and that of counts.
// Each is the only one with its law, and spans within others have answers within theirs, for every kind.
pub fn operations<K: NumberKind>() -> u8
    ensures value { result ≡ 8 }
    ensures only { Only K.NumberKind.model }
    ensures nested { Nested K.NumberKind.model }
{
    8
}
