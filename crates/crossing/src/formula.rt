// A formula that is read once for many windows.
ghost use Rattle.std.specs.Prelude.{◌≡◌, ◌≤◌, Ok, length, true};
ghost use Rattle.std.specs.List.{slice_get};
ghost use Rattle.boxes.specs.Stored.{box_of};
ghost use Rattle.crossing.specs.Standing.{Standing};
ghost use Rattle.crossing.specs.Windows.{report_over};
ghost use Rattle.fault.specs.Refusals.{found};
ghost use Rattle.fault.specs.declared.fault.Cause.TheVariants.{NoLine};
ghost use Rattle.reader.specs.Reading.{formula_at};
ghost use Rattle.rule.specs.Lent.{lent};
ghost use Rattle.sheet.specs.Contents.{contents};
ghost use Rattle.sheet.specs.declared.sheet.Sheet.{Sheet};

use crate::standing::records_over;
use boxes::ChannelBox;
use fault::{Cause, Fault};
use kind::NumberKind;
use line::Line;
use reader::{count_at, end_at, line_at};
use report::{Report, report_of};
use sheet::Sheet;
use slope::Record;

// The lines of a formula, on a sheet over no box of note.
pub(crate) fn formula_of(bytes: &[u8]) -> Result<Sheet, Fault>
    ensures { (s : Sheet) → result ≡ Ok s → formula_at bytes.now ≡ Ok (contents s).lines }
{
    let (count, from) = count_at(bytes)?;
    let mut place = from;
    let mut lines = [Line::Constant(0); 64];
    for n in 0..count {
        lines[n] = line_at(bytes, &mut place)?;
    }
    end_at(bytes, place)?;
    Ok(Sheet::of_parts(ChannelBox::blank(), &lines[..count]))
}

fn record_at<'a, K: NumberKind>(
    records: &'a [Record<K>],
    line: usize,
) -> Result<&'a Record<K>, Fault>
    ensures { lent result ≡ found NoLine line (slice_get records.now line) }
{
    records.get(line).ok_or(Cause::NoLine.at(line))
}

// The report of a line of a formula over a box. The records of constants are not made where they stand.
#[inline(always)]
pub(crate) fn report_in<K: NumberKind>(
    lines: &[Line],
    standing: bool,
    working: &mut [Record<K>],
    over: &ChannelBox,
    line: usize,
) -> Result<Report, Fault>
    requires room { length lines.now ≤ length working.old }
    requires standing { standing ≡ true → Standing K.NumberKind.model lines.now working.old }
    ensures value { result ≡ report_over K.NumberKind.model (box_of over.now) lines.now line }
    ensures standing { standing ≡ true → Standing K.NumberKind.model lines.now working.new }
{
    records_over(lines, standing, over, working)?;
    let record = record_at(&working[..lines.len()], line)?;
    Ok(report_of(over, record))
}
