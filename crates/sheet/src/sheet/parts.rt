// A sheet's parts, for who keeps a sheet in a form of its own.
ghost use Rattle.std.specs.Prelude.{◌≡◌, ◌≤◌, length, take};
ghost use Rattle.boxes.specs.Stored.{box_of};
ghost use Rattle.sheet.specs.Contents.{contents};

use crate::sheet::Sheet;
use boxes::ChannelBox;
use line::Line;

// A table that begins with these lines.
fn table(lines: &[Line]) -> [Line; 64]
    requires { length lines.now ≤ 64 }
    ensures whole { length result ≡ 64 }
    ensures begins { take (length lines.now) result ≡ lines.now }
{
    let mut table = [Line::Constant(0); 64];
    table[..lines.len()].copy_from_slice(lines);
    table
}

impl Sheet {
    pub fn over(&self) -> &ChannelBox
        ensures { box_of result.now ≡ (contents self.now).over }
    {
        &self.over
    }

    // The held lines.
    pub fn lines(&self) -> &[Line]
        ensures { result.now ≡ (contents self.now).lines }
    {
        &self.lines[..self.held]
    }

    // A sheet with these parts; of more than 64 lines it holds the first.
    pub fn of_parts(over: ChannelBox, lines: &[Line]) -> Sheet
        ensures { contents result ≡ record { over = box_of over; lines = take 64 lines.now } }
    {
        let held = &lines[..lines.len().min(64)];
        Sheet {
            over,
            lines: table(held),
            held: held.len(),
        }
    }
}
