// Making a box from lists of counts, or of other ends.
ghost use Rattle.std.specs.Prelude.{◌≡◌, Ok};
ghost use Rattle.std.specs.List.{slice_get};
ghost use Rattle.fault.specs.Refusals.{found};
ghost use Rattle.fault.specs.declared.fault.Cause.TheVariants.{NoChannel};
ghost use Rattle.boxes.specs.Boxes as boxes;
ghost use Rattle.boxes.specs.Rising.{Rising, asked};
ghost use Rattle.boxes.specs.Rising as rising;
ghost use Rattle.boxes.specs.Stored.{box_of, boxed, ranged};

use crate::channels::ChannelBox;
use crate::range::Range;
use fault::{Cause, Fault};

// A number as a count.
pub fn count(n: i64, place: usize) -> Result<i32, Fault>
    ensures { result ≡ boxes.counted n place }
{
    if n < -1_073_741_823 || n > 1_073_741_823 {
        return Err(Cause::Number.at(place));
    }
    Ok(n as i32)
}

// Two numbers as a range.
pub(crate) fn ordered(lower: i32, upper: i32, channel: usize) -> Result<Range, Fault>
    ensures { ranged result ≡ boxes.ordered lower upper channel }
{
    if lower > upper {
        return Err(Cause::Order.at(channel));
    }
    Ok(Range { lower, upper })
}

// The range of a channel.
pub(crate) fn range(lower: i64, upper: i64, channel: usize) -> Result<Range, Fault>
    ensures { ranged result ≡ boxes.range lower upper channel }
{
    let l = count(lower, channel)?;
    let u = count(upper, channel)?;
    ordered(l, u, channel)
}

// A number as the centre of a range.
pub(crate) fn inside(range: Range, centre: i32, channel: usize) -> Result<i32, Fault>
    ensures { result ≡ boxes.inside range.lower range.upper centre channel }
{
    if centre < range.lower || centre > range.upper {
        return Err(Cause::Centre.at(channel));
    }
    Ok(centre)
}

fn centred(range: Range, centre: i64, channel: usize) -> Result<i32, Fault>
    ensures { result ≡ boxes.centred range.lower range.upper centre channel }
{
    let x = count(centre, channel)?;
    inside(range, x, channel)
}

// The range of a channel, if it is one of these.
pub fn range_at(ranges: &[Range], channel: usize, place: usize) -> Result<Range, Fault>
    ensures { result ≡ found NoChannel place (slice_get ranges.now channel) }
{
    ranges
        .get(channel)
        .copied()
        .ok_or(Cause::NoChannel.at(place))
}

impl ChannelBox {
    // One channel from 0 to 0, swept about 0.
    pub fn blank() -> ChannelBox
        ensures { box_of result ≡ boxes.blank_box }
    {
        ChannelBox {
            ranges: [Range { lower: 0, upper: 0 }; 8],
            channels: 1,
            swept: 0,
            centre: 0,
        }
    }

    // The box of lower and upper ends, a swept channel and its centre. It is judged channel by channel, up to the first bad one. (This
    // project has a box as two lists of counts; they may be of unequal length, which is refused.)
    pub fn opened(
        lower: &[i64],
        upper: &[i64],
        swept: usize,
        centre: i64,
    ) -> Result<ChannelBox, Fault>
        ensures { boxed result ≡ boxes.opened lower.now upper.now swept centre }
    {
        let channels = lower.len();
        if channels == 0 || channels > 8 || channels != upper.len() {
            return Err(Cause::Channels.at(0));
        }
        let mut ranges = [Range { lower: 0, upper: 0 }; 8];
        // by the channel's index, as this project has it: it is also the place of a refusal
        for c in 0..channels {
            ranges[c] = range(lower[c], upper[c], c)?;
        }
        let swept_range = range_at(&ranges[..channels], swept, swept)?;
        let centre = centred(swept_range, centre, swept)?;
        Ok(ChannelBox {
            ranges,
            channels,
            swept,
            centre,
        })
    }

    // The box of ends that need not be counts, a swept channel and its centre, judged as `opened` judges, but for the size of the
    // numbers. So none is refused that has 1 to 8 channels, the ends of each in order, and a centre inside the swept one.
    pub fn of_ends(
        lower: &[i32],
        upper: &[i32],
        swept: usize,
        centre: i32,
    ) -> Result<ChannelBox, Fault>
        ensures value { boxed result ≡ rising.of_ends lower.now upper.now swept centre }
        ensures taken { let b = asked lower.now upper.now swept centre in Rising b → boxed result ≡ Ok b }
    {
        let channels = lower.len();
        if channels == 0 || channels > 8 || channels != upper.len() {
            return Err(Cause::Channels.at(0));
        }
        let mut ranges = [Range { lower: 0, upper: 0 }; 8];
        for c in 0..channels {
            ranges[c] = ordered(lower[c], upper[c], c)?;
        }
        let swept_range = range_at(&ranges[..channels], swept, swept)?;
        let centre = inside(swept_range, centre, swept)?;
        Ok(ChannelBox {
            ranges,
            channels,
            swept,
            centre,
        })
    }
}
