// Writing lines and formulas.
ghost use Rattle.std.specs.Prelude.{◌≡◌, ◌+◌, ◌*◌, ◌≤◌, length, IfOk};
ghost use Rattle.writer.specs.Trips.{FormulaTrips};
ghost use Rattle.writer.specs.Writing.{line_bytes, lines_bytes, formula_bytes, needed, filled};

use crate::numbers::width;
use crate::pen::Pen;
use fault::{Cause, Fault};
use line::Line;

fn line_width(line: Line) -> usize
    ensures value { result ≡ length (line_bytes line) }
    ensures bound { result ≤ 40 }
{
    width(Some(u64::from(line.operation())))
        + width(Some(line.first()))
        + width(line.second())
        + width(line.third())
}

// How many bytes a formula takes.
fn formula_width(lines: &[Line]) -> usize
    requires { length lines.now ≤ 64 }
    ensures { result ≡ length (formula_bytes lines.now) }
{
    let lines_width: usize = lines.iter().map(|line| line_width(*line)).sum();
    width(Some(lines.len() as u64)) + lines_width
}

// How many bytes the formula takes; refused for no lines, for more than 64, or for too few bytes to write to.
fn room_for(lines: &[Line], out: &[u8]) -> Result<usize, Fault>
    ensures answer { result ≡ needed lines.now out.now }
    ensures fits { IfOk result (λ _. length (formula_bytes lines.now) ≤ length out.now) }
{
    if lines.is_empty() {
        return Err(Cause::NoLine.at(0));
    }
    if lines.len() > 64 {
        return Err(Cause::Count.at(0));
    }
    let needed = formula_width(lines);
    if out.len() < needed {
        return Err(Cause::Room.at(needed));
    }
    Ok(needed)
}

// Writes the bytes of a formula of 1 to 64 lines, and answers how many they are; no other byte changes. Too few bytes to write to
// are refused with the number needed as place. What is written is read back as the same lines, and bytes that were read as lines
// are what those lines write.
#[tactic(auto, using(crate::proofs::Back::trips))]
pub fn write(lines: &[Line], out: &mut [u8]) -> Result<usize, Fault>
    ensures answer { result ≡ needed lines.now out.old }
    ensures bytes { out.new ≡ filled result lines.now out.old }
    ensures trips { FormulaTrips }
{
    let needed = room_for(lines, out)?;
    let mut pen = Pen { out, at: 0 };
    pen.put(Some(lines.len() as u64));
    pen.put_lines(lines);
    Ok(needed)
}
