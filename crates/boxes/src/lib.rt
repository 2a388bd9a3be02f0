// Boxes of channel ranges.
#![tactic(auto)]

mod channels;
mod moving;
mod opening;
mod range;

pub use channels::ChannelBox;
pub use opening::{count, range_at};
pub use range::Range;
