// What a sheet in memory means, part by part.
ghost use Rattle.std.specs.Prelude.{◌≡◌, ◌≤◌, Ok, length, map, take};
ghost use Rattle.boxes.specs.Stored.{box_of};
ghost use Rattle.crossing.specs.Lines.{line_of};
ghost use Rattle.crossing.specs.Sheets.{box_in, sheet_of};

use crate::boxed::stored;
use crate::means::read_all;
use crate::memory::CSheet;
use boxes::ChannelBox;
use line::Line;

impl CSheet {
    // The box that this memory means, and how many lines.
    pub(crate) fn parts(&self) -> (ChannelBox, usize)
        ensures over { box_of result.0 ≡ (sheet_of self.now).over }
        ensures held { result.1 ≡ length (sheet_of self.now).lines }
        ensures few { result.1 ≤ 64 }
        ensures lines { (sheet_of self.now).lines ≡ map line_of (take result.1 self.now.lines) }
    {
        match self.over.opened() {
            Ok(over) if self.held <= 64 => (over, self.held),
            _ => (ChannelBox::blank(), 0),
        }
    }

    // The box that this memory means. What is no sheet becomes the blank one that it means.
    pub(crate) fn whole(&mut self) -> ChannelBox
        ensures over { box_in self.new.over ≡ Ok (box_of result) }
        ensures few { self.new.held ≤ 64 }
        ensures means { sheet_of self.new ≡ sheet_of self.old }
    {
        match self.over.opened() {
            Ok(over) if self.held <= 64 => over,
            _ => {
                let over = ChannelBox::blank();
                self.over = stored(&over);
                self.held = 0;
                over
            }
        }
    }

    // A table that begins with the lines that this memory means, and how many those are.
    pub(crate) fn table(&self) -> ([Line; 64], usize)
        ensures lines { take result.1 result.0 ≡ (sheet_of self.now).lines }
        ensures few { result.1 ≤ 64 }
        ensures long { length result.0 ≡ 64 }
    {
        let (_, held) = self.parts();
        let mut lines = [Line::Constant(0); 64];
        read_all(&mut lines[..held], &self.lines[..held]);
        (lines, held)
    }
}
