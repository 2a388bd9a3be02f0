// The marks of the fixed kind.
ghost use Rattle.std.specs.Prelude.{pos, neg_ℤ, ◌≤ℤ◌};

// A mark of the fixed kind: `count` / 65,536.
#[derive(Clone, Copy, PartialEq, Eq, Debug)]
pub struct Fixed {
    pub count: i32,
    ghost fits: { (neg_ℤ (pos 1073741823) ≤ℤ count) × (count ≤ℤ pos 1073741823) },
}
