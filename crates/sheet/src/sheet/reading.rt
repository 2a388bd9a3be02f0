// Reading the lines of a formula.
ghost use Rattle.std.specs.Prelude.{◌≡◌, ◌≤◌, true, [], length, take, is_ok};
ghost use Rattle.boxes.specs.Stored.{box_of};
ghost use Rattle.sheet.specs.Contents.{contents};
ghost use Rattle.sheet.specs.Reading.{Read, ReadTrips, filled, overlaid, read_formula, read_lines, read_onto};

use crate::sheet::Sheet;
use crate::sheet::lending::enough;
use fault::{Cause, Fault};
use kind::NumberKind;
use leb::Place;
use reader::{count_at, end_at, line_at};
use rule::record_line;
use slope::Record;

impl Sheet {
    // Reads lines into the table and makes their records. None of them is held yet.
    fn read_lines<K: NumberKind>(
        &mut self,
        working: &mut [Record<K>],
        bytes: &[u8],
        count: usize,
        from: Place,
    ) -> Result<(), Fault>
        requires empty { self.old.held ≡ 0 }
        requires room { 64 ≤ length working.old }
        requires most { count ≤ 64 }
        ensures answer { result ≡ (read_lines K.NumberKind.model (box_of self.old.over) count bytes.now from.at [] []).answer }
        ensures records { working.new ≡ overlaid (read_lines K.NumberKind.model (box_of self.old.over) count bytes.now from.at [] []).records working.old }
        ensures table { is_ok result ≡ true → take count self.new.lines ≡ (read_lines K.NumberKind.model (box_of self.old.over) count bytes.now from.at [] []).lines }
        ensures over { self.new.over ≡ self.old.over }
        ensures none { self.new.held ≡ 0 }
    {
        let mut place = from;
        // n is the line's number: its place in the table and among the working lines, and how many are earlier
        for n in 0..count {
            let line = line_at(bytes, &mut place)?;
            record_line(&self.over, working, n, line)?;
            self.lines[n] = line;
        }
        end_at(bytes, place)
    }

    // Reads a formula onto a sheet that holds no line.
    fn fill<K: NumberKind>(&mut self, working: &mut [Record<K>], bytes: &[u8]) -> Result<(), Fault>
        requires empty { self.old.held ≡ 0 }
        requires room { 64 ≤ length working.old }
        ensures answer { result ≡ (read_formula K.NumberKind.model (box_of self.old.over) bytes.now).answer }
        ensures sheet { contents self.new ≡ filled (contents self.old) result (read_formula K.NumberKind.model (box_of self.old.over) bytes.now).lines }
        ensures records { working.new ≡ overlaid (read_formula K.NumberKind.model (box_of self.old.over) bytes.now).records working.old }
    {
        let (count, place) = count_at(bytes)?;
        self.read_lines(working, bytes, count, place)?;
        self.held = count;
        Ok(())
    }

    // Adds all lines of a formula to an empty sheet. A refusal leaves no line, and the records made before it. Bytes that were read are
    // what their lines write, and what a sheet writes is read as its lines, with their records, by an empty sheet over the same box.
    pub fn read<K: NumberKind>(
        &mut self,
        working: &mut [Record<K>],
        bytes: &[u8],
    ) -> Result<(), Fault>
        ensures call { Read K.NumberKind.model bytes.now (contents self.old) working.old result (contents self.new) working.new }
        ensures trips { ReadTrips K.NumberKind.model }
    {
        enough(working)?;
        if self.held > 0 {
            return Err(Cause::NotEmpty.at(0));
        }
        self.fill(working, bytes)
    }
}
