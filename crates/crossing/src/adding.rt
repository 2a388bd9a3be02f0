// Adding a line in memory: of the working lines the records of its operands are read, and its own is written.
ghost use Rattle.std.specs.Prelude.{◌≡◌, ◌+◌, ◌<◌, ◌≤◌, ◌++◌, ◌∷◌, [], ℕ, length};
ghost use Rattle.crossing.specs.Lines.{line_of};
ghost use Rattle.crossing.specs.Memory.{Beyond, records_in};
ghost use Rattle.crossing.specs.Found.{Brought};
ghost use Rattle.crossing.specs.Sheets.{lines_in, sheet_of};
ghost use Rattle.sheet.specs.Calls.{Added};

use crate::making::record_in;
use crate::marks::Crossing;
use crate::means::Means;
use crate::memory::{CLine, CRecord, CSheet};
use fault::{Cause, Fault};
use slope::Record;

// The record of a working line, in its place.
fn bring<K: Crossing>(records: &mut [Record<K>], working: &[CRecord], l: usize)
    requires room { length records.old ≡ 64 }
    requires lent { 64 ≤ length working.now }
    ensures long { length records.new ≡ 64 }
    ensures here { Brought K.Crossing.mark_of working.now records.new l }
    ensures rest { (k : ℕ) → Brought K.Crossing.mark_of working.now records.old k → Brought K.Crossing.mark_of working.now records.new k }
{
    if l < 64 {
        records[l] = working[l].meaning();
    }
}

// The records that a line may name.
fn bring_operands<K: Crossing>(records: &mut [Record<K>], working: &[CRecord], line: CLine)
    requires room { length records.old ≡ 64 }
    requires lent { 64 ≤ length working.now }
    ensures long { length records.new ≡ 64 }
    ensures first { Brought K.Crossing.mark_of working.now records.new line.a }
    ensures second { Brought K.Crossing.mark_of working.now records.new line.b }
    ensures third { Brought K.Crossing.mark_of working.now records.new line.c }
{
    bring(records, working, line.a);
    bring(records, working, line.b);
    bring(records, working, line.c);
}

impl CSheet {
    // One more line is held.
    fn hold(&mut self, line: CLine)
        requires { self.old.held < 64 }
        ensures over { self.new.over ≡ self.old.over }
        ensures lines { lines_in self.new ≡ lines_in self.old ++ line_of line ∷ [] }
        ensures held { self.new.held ≡ self.old.held + 1 }
    {
        self.lines[self.held] = line;
        self.held += 1;
    }
}

// Appends a line, with its record in the working line of its number, which it answers.
pub(crate) fn add_line<K: Crossing>(
    sheet: &mut CSheet,
    working: &mut [CRecord],
    records: &mut [Record<K>],
    line: CLine,
) -> Result<usize, Fault>
    requires { length records.old ≡ 64 }
    ensures call { Added K.NumberKind.model (line_of line) (sheet_of sheet.old) (records_in K.Crossing.mark_of working.old) result (sheet_of sheet.new) (records_in K.Crossing.mark_of working.new) }
    ensures beyond { Beyond working.old working.new }
{
    if working.len() < 64 {
        return Err(Cause::Lines.at(0));
    }
    let over = sheet.whole();
    let n = sheet.held;
    if n == 64 {
        return Err(Cause::Full.at(64));
    }
    bring_operands(records, working, line);
    working[n] = CRecord::form(record_in(&over, records, n, line.meaning())?);
    sheet.hold(line);
    Ok(n)
}
