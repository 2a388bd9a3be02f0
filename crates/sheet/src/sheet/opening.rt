// Blank sheets, and opening a sheet over a box.
ghost use Rattle.std.specs.Prelude.{◌≡◌};
ghost use Rattle.sheet.specs.Contents.{contents};
ghost use Rattle.sheet.specs.Calls.{Opened};
ghost use Rattle.sheet.specs.Contents as sheets;

use crate::sheet::Sheet;
use boxes::ChannelBox;
use fault::Fault;
use line::Line;

impl Sheet {
    // One channel from 0 to 0, swept about 0, and no lines.
    pub fn blank() -> Sheet
        ensures { contents result ≡ sheets.blank }
    {
        Sheet {
            over: ChannelBox::blank(),
            lines: [Line::Constant(0); 64],
            held: 0,
        }
    }

    // Opens the sheet over a box, given by its four parts as this project has it, and empties it. A refusal leaves the sheet as it was.
    pub fn open(
        &mut self,
        lower: &[i64],
        upper: &[i64],
        swept: usize,
        centre: i64,
    ) -> Result<(), Fault>
        ensures { Opened lower.now upper.now swept centre (contents self.old) result (contents self.new) }
    {
        let over = ChannelBox::opened(lower, upper, swept, centre)?;
        self.over = over;
        self.held = 0;
        Ok(())
    }
}
