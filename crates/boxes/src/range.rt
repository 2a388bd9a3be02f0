// The range of a channel.
ghost use Rattle.std.specs.Prelude.{◌≤ℤ◌};

// A range in counts.
#[derive(Clone, Copy, PartialEq, Eq, Debug)]
pub struct Range {
    pub lower: i32,
    pub upper: i32,
    ghost ordered: { lower ≤ℤ upper },
}
