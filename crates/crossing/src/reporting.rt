// Reports of lines in memory, each by its own record alone.
ghost use Rattle.std.specs.Prelude.{◌≡◌, length, take};
ghost use Rattle.crossing.specs.Calls.{Reports};
ghost use Rattle.crossing.specs.Memory.{records_in};
ghost use Rattle.crossing.specs.Sheets.{sheet_of};
ghost use Rattle.sheet.specs.Calls.{Reported};
ghost use Rattle.sheet.specs.Calls as calls;

use crate::answers::reported;
use crate::marks::Crossing;
use crate::means::Means;
use crate::memory::{CAnswer, CRecord, CSheet};
use fault::{Cause, Fault};
use report::{Report, report_of};
use slope::Record;

// (Apart from `report_line`, as in a sheet of the library's.)
fn by_record<K: Crossing>(sheet: &CSheet, working: &[CRecord], line: usize) -> Result<Report, Fault>
    ensures { result ≡ calls.report K.NumberKind.model (sheet_of sheet.now) (length (records_in K.Crossing.mark_of working.now)) (take (length (sheet_of sheet.now).lines) (records_in K.Crossing.mark_of working.now)) line }
{
    if working.len() < 64 {
        return Err(Cause::Lines.at(0));
    }
    let (over, held) = sheet.parts();
    if line >= held {
        return Err(Cause::NoLine.at(line));
    }
    let record: Record<K> = working[line].meaning();
    Ok(report_of(&over, &record))
}

pub(crate) fn report_line<K: Crossing>(
    sheet: &CSheet,
    working: &[CRecord],
    line: usize,
) -> Result<Report, Fault>
    ensures { Reported K.NumberKind.model line (sheet_of sheet.now) (records_in K.Crossing.mark_of working.now) result }
{
    by_record::<K>(sheet, working, line)
}

pub fn report<K: Crossing>(sheet: &CSheet, working: &[CRecord], line: usize) -> CAnswer
    ensures { Reports K.NumberKind.model K.Crossing.mark_of line sheet.now working.now result }
{
    reported(report_line::<K>(sheet, working, line))
}
