// The box: channel ranges, the swept channel and its centre.
ghost use Rattle.std.specs.Prelude.{◌≡◌, ◌<◌, ◌≤◌, length, Some, ◌≤ℤ◌};
ghost use Rattle.std.specs.List.{slice_get};
ghost use Rattle.boxes.specs.declared.range.Range.{Range};

use crate::range::Range;

// The ranges of 1 to 8 channels. One channel is swept, and has a centre inside its range.
#[derive(Clone, Copy)]
pub struct ChannelBox {
    // fixed memory: the first `channels` ranges are the box's
    pub ranges: [Range; 8],
    pub channels: usize,
    pub swept: usize,
    pub centre: i32,
    ghost whole: { length ranges ≡ 8 },
    ghost few: { channels ≤ 8 },
    ghost inside: { swept < channels },
    ghost centred: { (r : Range) → slice_get ranges swept ≡ Some r → (r.lower ≤ℤ centre) × (centre ≤ℤ r.upper) },
}
