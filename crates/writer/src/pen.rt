// Writing from a place on.
ghost use Rattle.line.specs.Operations as lines;
ghost use Rattle.std.specs.Prelude.{◌≡◌, nat_lt};
ghost use Rattle.writer.specs.Pens.{Fits, Wrote};
ghost use Rattle.writer.specs.Writing.{held_bytes, line_bytes, lines_bytes};

use crate::numbers::Groups;
use line::Line;

// Bytes to write to, and the place of the next one.
#[derive(Drop)]
pub struct Pen<'a> {
    pub out: &'a mut [u8],
    pub at: usize,
}

// The operands of a line, as they are written.
fn operands_of(line: Line) -> (u64, Option<u64>, Option<u64>)
    ensures first { result.0 ≡ lines.first line }
    ensures second { result.1 ≡ lines.held (nat_lt 1 (lines.arity (lines.operation line))) (lines.second line) }
    ensures third { result.2 ≡ lines.held (nat_lt 2 (lines.arity (lines.operation line))) (lines.third line) }
{
    (line.first(), line.second(), line.third())
}

impl Pen<'_> {
    // Writes a number, if it is there.
    pub fn put(&mut self, n: Option<u64>)
        requires { Fits self.old (held_bytes n) }
        ensures { Wrote self.old self.new (held_bytes n) }
    {
        // The place moves on by hand, since it outlives the loop: by a zip it would have to be moved afterwards by a count.
        for byte in (Groups { rest: n }) {
            self.out[self.at] = byte;
            self.at += 1;
        }
    }

    fn put_line(&mut self, line: Line)
        requires { Fits self.old (line_bytes line) }
        ensures { Wrote self.old self.new (line_bytes line) }
    {
        let (a, b, c) = operands_of(line);
        self.put(Some(u64::from(line.operation())));
        self.put(Some(a));
        self.put(b);
        self.put(c);
    }

    pub fn put_lines(&mut self, lines: &[Line])
        requires { Fits self.old (lines_bytes lines.now) }
        ensures { Wrote self.old self.new (lines_bytes lines.now) }
    {
        for line in lines {
            self.put_line(*line);
        }
    }
}
