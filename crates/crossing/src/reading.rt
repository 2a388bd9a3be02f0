// Reading a formula in memory: each line and its record are written as they are read and made.
ghost use Rattle.std.specs.Prelude.{◌≡◌, ◌≤◌, [], is_ok, length, map, take, true};
ghost use Rattle.boxes.specs.Stored.{box_of};
ghost use Rattle.crossing.specs.Lines.{line_of};
ghost use Rattle.crossing.specs.Memory.{Beyond, records_in};
ghost use Rattle.crossing.specs.Sheets.{sheet_of};
ghost use Rattle.sheet.specs.Reading.{Read, overlaid, read_lines};

use crate::making::record_in;
use crate::marks::Crossing;
use crate::means::Means;
use crate::memory::{CLine, CRecord, CSheet};
use boxes::ChannelBox;
use fault::{Cause, Fault};
use leb::Place;
use reader::{count_at, end_at, line_at};
use slope::Record;

// Reads so many lines into the table. None of them is held yet.
fn read_lines<K: Crossing>(
    sheet: &mut CSheet,
    working: &mut [CRecord],
    records: &mut [Record<K>],
    over: &ChannelBox,
    bytes: &[u8],
    count: usize,
    from: Place,
) -> Result<(), Fault>
    requires lent { 64 ≤ length working.old }
    requires room { length records.old ≡ 64 }
    requires most { count ≤ 64 }
    ensures answer { result ≡ (read_lines K.NumberKind.model (box_of over.now) count bytes.now from.at [] []).answer }
    ensures records { records_in K.Crossing.mark_of working.new ≡ overlaid (read_lines K.NumberKind.model (box_of over.now) count bytes.now from.at [] []).records (records_in K.Crossing.mark_of working.old) }
    ensures table { is_ok result ≡ true → take count (map line_of sheet.new.lines) ≡ (read_lines K.NumberKind.model (box_of over.now) count bytes.now from.at [] []).lines }
    ensures over { sheet.new.over ≡ sheet.old.over }
    ensures held { sheet.new.held ≡ sheet.old.held }
    ensures beyond { Beyond working.old working.new }
{
    let mut place = from;
    for n in 0..count {
        let line = line_at(bytes, &mut place)?;
        working[n] = CRecord::form(record_in(over, records, n, line)?);
        sheet.lines[n] = CLine::form(line);
    }
    end_at(bytes, place)
}

// Adds all lines of a formula to a sheet that holds none.
pub(crate) fn read_formula<K: Crossing>(
    sheet: &mut CSheet,
    working: &mut [CRecord],
    records: &mut [Record<K>],
    bytes: &[u8],
) -> Result<(), Fault>
    requires { length records.old ≡ 64 }
    ensures call { Read K.NumberKind.model bytes.now (sheet_of sheet.old) (records_in K.Crossing.mark_of working.old) result (sheet_of sheet.new) (records_in K.Crossing.mark_of working.new) }
    ensures beyond { Beyond working.old working.new }
{
    if working.len() < 64 {
        return Err(Cause::Lines.at(0));
    }
    let over = sheet.whole();
    if sheet.held > 0 {
        return Err(Cause::NotEmpty.at(0));
    }
    let (count, from) = count_at(bytes)?;
    read_lines(sheet, working, records, &over, bytes, count, from)?;
    sheet.held = count;
    Ok(())
}
