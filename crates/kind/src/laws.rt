// What holds of every kind.
ghost use Rattle.std.specs.Prelude.{◌≡◌};
ghost use Rattle.kind.specs.Rounding.{Orderly};

use crate::kind::NumberKind;

// How many directions a kind rounds in. In each, rounding is unique and keeps the order, for every kind.
pub fn directions<K: NumberKind>() -> u8
    ensures value { result ≡ 2 }
    ensures orderly { Orderly K.NumberKind.model }
{
    2
}
