// Moving a channel.
ghost use Rattle.std.specs.Prelude.{◌≡◌, ◌≤◌, [], length, take, Ok};
ghost use Rattle.boxes.specs.Stored.{box_of, boxed};
ghost use Rattle.sheet.specs.Contents.{contents};
ghost use Rattle.sheet.specs.Moving.{Moved, MovedTo, remade};
ghost use Rattle.sheet.specs.Moving as moving;
ghost use Rattle.sheet.specs.Reading.{overlaid};

use crate::sheet::Sheet;
use crate::sheet::lending::enough;
use boxes::ChannelBox;
use fault::Fault;
use kind::NumberKind;
use rule::record_line;
use slope::Record;

// The first so many records become those of another slice.
fn copy<K: NumberKind>(to: &mut [Record<K>], from: &[Record<K>], count: usize)
    requires to { count ≤ length to.old }
    requires from { count ≤ length from.now }
    ensures { to.new ≡ overlaid (take count from.now) to.old }
{
    to[..count].copy_from_slice(&from[..count]);
}

impl Sheet {
    // Another box under the held lines.
    fn lay(&mut self, over: ChannelBox)
        ensures { contents self.new ≡ record { over = box_of over; lines = (contents self.old).lines } }
    {
        self.over = over;
    }

    // Makes the records of the held lines anew over a box, in the spare lines.
    #[inline(always)]
    fn remake<K: NumberKind>(&self, over: &ChannelBox, spare: &mut [Record<K>]) -> Result<(), Fault>
        requires room { 64 ≤ length spare.old }
        ensures answer { result ≡ (remade K.NumberKind.model (box_of over.now) (contents self.now).lines [] []).answer }
        ensures records { spare.new ≡ overlaid (remade K.NumberKind.model (box_of over.now) (contents self.now).lines [] []).records spare.old }
    {
        for n in 0..self.held {
            record_line(over, spare, n, self.lines[n])?;
        }
        Ok(())
    }

    // Makes all records anew over a box, which becomes the sheet's.
    fn move_to<K: NumberKind>(
        &mut self,
        working: &mut [Record<K>],
        spare: &mut [Record<K>],
        over: ChannelBox,
    ) -> Result<(), Fault>
        requires working { 64 ≤ length working.old }
        requires spare { 64 ≤ length spare.old }
        ensures { MovedTo K.NumberKind.model (Ok (box_of over)) (contents self.old) working.old spare.old result (contents self.new) working.new spare.new }
    {
        self.remake(&over, spare)?;
        copy(working, spare, self.held);
        self.lay(over);
        Ok(())
    }

    // The new box, if enough working and spare lines are lent.
    fn new_box<K: NumberKind>(
        &self,
        working: &[Record<K>],
        spare: &[Record<K>],
        channel: usize,
        lower: i64,
        upper: i64,
        centre: i64,
    ) -> Result<ChannelBox, Fault>
        ensures { boxed result ≡ moving.new_box (contents self.now) (length working.now) (length spare.now) channel lower upper centre }
    {
        enough(working)?;
        enough(spare)?;
        self.over.moved(channel, lower, upper, centre)
    }

    // Gives a channel a new range, and the swept one a new centre, and makes all records anew. A refusal leaves the sheet and the working
    // lines as they were, and the records made before it in the spare lines.
    pub fn move_channel<K: NumberKind>(
        &mut self,
        working: &mut [Record<K>],
        spare: &mut [Record<K>],
        channel: usize,
        lower: i64,
        upper: i64,
        centre: i64,
    ) -> Result<(), Fault>
        ensures { Moved K.NumberKind.model channel lower upper centre (contents self.old) working.old spare.old result (contents self.new) working.new spare.new }
    {
        let over = self.new_box(working, spare, channel, lower, upper, centre)?;
        self.move_to(working, spare, over)
    }
}
