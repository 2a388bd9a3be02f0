// Calls on a sheet and their answers.
use line::Line;
use report::Report;

// A box, given by its lists of lower and upper ends, its swept channel and the centre.
#[derive(Clone, Copy)]
pub struct Opening<'a> {
    pub lower: &'a [i64],
    pub upper: &'a [i64],
    pub swept: usize,
    pub centre: i64,
}

// A new range of a channel; the centre is that of the swept channel, and not read for any other.
#[derive(Clone, Copy)]
pub struct Moving {
    pub channel: usize,
    pub lower: i64,
    pub upper: i64,
    pub centre: i64,
}

#[derive(Clone, Copy)]
pub enum Call<'a> {
    Open(Opening<'a>),
    Add(Line),
    Strike,
    Move(Moving),
    Read(&'a [u8]),
    Write,
    Report(usize),
}

#[derive(Clone, Copy)]
pub enum Answer {
    Accepted,
    // the number of a line that was added
    Line(usize),
    // how many bytes were written
    Length(usize),
    Report(Report),
}
