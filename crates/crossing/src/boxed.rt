// Boxes in memory.
ghost use Rattle.std.specs.Prelude.{◌≡◌, Ok};
ghost use Rattle.boxes.specs.Boxes.{Proper};
ghost use Rattle.boxes.specs.Stored.{box_of, boxed};
ghost use Rattle.crossing.specs.Sheets.{box_in};

use crate::memory::CBox;
use boxes::ChannelBox;
use fault::{Cause, Fault};

impl CBox {
    // The box that open makes of this.
    pub(crate) fn opened(&self) -> Result<ChannelBox, Fault>
        ensures { boxed result ≡ box_in self.now }
    {
        let n = self.channels;
        if n > 8 {
            return Err(Cause::Channels.at(0));
        }
        ChannelBox::opened(&self.lower[..n], &self.upper[..n], self.swept, self.centre)
    }
}

// A box as memory. Ranges beyond its channels are 0 to 0.
pub(crate) fn stored(over: &ChannelBox) -> CBox
    requires { Proper (box_of over.now) }
    ensures { box_in result ≡ Ok (box_of over.now) }
{
    let mut lower = [0; 8];
    let mut upper = [0; 8];
    for c in 0..over.channels {
        lower[c] = i64::from(over.ranges[c].lower);
        upper[c] = i64::from(over.ranges[c].upper);
    }
    CBox {
        lower,
        upper,
        channels: over.channels,
        swept: over.swept,
        centre: i64::from(over.centre),
    }
}
