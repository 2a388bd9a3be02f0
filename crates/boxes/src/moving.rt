// Giving one channel of a box another range.
ghost use Rattle.std.specs.Prelude.{◌≡◌, ◌≢◌, ◌<◌, ◌≤ℤ◌};
ghost use Rattle.boxes.specs.Moving as moving;
ghost use Rattle.boxes.specs.Stored.{box_of, boxed, ranged_about};

use crate::channels::ChannelBox;
use crate::opening::{count, inside, ordered, range};
use crate::range::Range;
use fault::{Cause, Fault};

// Three counts as a range and its centre.
fn about(lower: i32, upper: i32, centre: i32, channel: usize) -> Result<(Range, i32), Fault>
    ensures { ranged_about result ≡ moving.about lower upper centre channel }
{
    let range = ordered(lower, upper, channel)?;
    let x = inside(range, centre, channel)?;
    Ok((range, x))
}

// The range of a swept channel and its centre.
fn range_about(lower: i64, upper: i64, centre: i64, channel: usize) -> Result<(Range, i32), Fault>
    ensures { ranged_about result ≡ moving.range_about lower upper centre channel }
{
    let l = count(lower, channel)?;
    let u = count(upper, channel)?;
    let x = count(centre, channel)?;
    about(l, u, x, channel)
}

impl ChannelBox {
    // The new range of a channel, and the box's new centre: that of a channel which is not swept is not read.
    fn judged(
        &self,
        channel: usize,
        lower: i64,
        upper: i64,
        centre: i64,
    ) -> Result<(Range, i32), Fault>
        ensures { ranged_about result ≡ moving.judged (box_of self.now) channel lower upper centre }
    {
        if channel == self.swept {
            return range_about(lower, upper, centre, channel);
        }
        let range = range(lower, upper, channel)?;
        Ok((range, self.centre))
    }

    // The box with this range for a channel, and this centre.
    fn changed(&self, channel: usize, range: Range, centre: i32) -> ChannelBox
        requires held { channel < self.now.channels }
        requires within { channel ≡ self.now.swept → (range.lower ≤ℤ centre) × (centre ≤ℤ range.upper) }
        requires still { channel ≢ self.now.swept → centre ≡ self.now.centre }
        ensures { box_of result ≡ moving.changed (box_of self.now) channel range.lower range.upper centre }
    {
        let mut ranges = self.ranges;
        ranges[channel] = range;
        ChannelBox {
            ranges,
            channels: self.channels,
            swept: self.swept,
            centre,
        }
    }

    // The box with another range for a channel and, if it is the swept one, another centre. A refusal has the channel as its place.
    pub fn moved(
        &self,
        channel: usize,
        lower: i64,
        upper: i64,
        centre: i64,
    ) -> Result<ChannelBox, Fault>
        ensures { boxed result ≡ moving.moved (box_of self.now) channel lower upper centre }
    {
        if channel >= self.channels {
            return Err(Cause::NoChannel.at(channel));
        }
        let (range, centre) = self.judged(channel, lower, upper, centre)?;
        Ok(self.changed(channel, range, centre))
    }
}
