// A sheet: a box, and at most 64 lines.
ghost use Rattle.std.specs.Prelude.{◌≡◌, ◌≤◌, length};

use boxes::ChannelBox;
use line::Line;

mod adding;
mod counting;
mod lending;
mod moving;
mod opening;
mod parts;
mod reading;
mod reporting;
mod striking;
mod writing;

// The first `held` lines of the table are held. Records of lines are not kept here: the caller hands them to each call.
#[derive(Drop)]
pub struct Sheet {
    over: ChannelBox,
    // fixed memory: a table with the number of its lines that are held
    lines: [Line; 64],
    held: usize,
    ghost whole: { length lines ≡ 64 },
    ghost few: { held ≤ 64 },
}
