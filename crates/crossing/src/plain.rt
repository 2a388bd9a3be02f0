// The calls that need no records. They are the same for every kind.
ghost use Rattle.crossing.specs.Calls.{Opens, Strikes, Writes};
ghost use Rattle.crossing.specs.Sheets.{sheet_of};
ghost use Rattle.sheet.specs.Calls.{Opened, Struck, Written};

use crate::answers::answer;
use crate::boxed::stored;
use crate::memory::{CAnswer, CSheet};
use boxes::ChannelBox;
use fault::{Cause, Fault};
use runs::Answer;

// A box over no lines. What a refused sheet held stays.
pub(crate) fn opened(
    sheet: &mut CSheet,
    lower: &[i64],
    upper: &[i64],
    swept: usize,
    centre: i64,
) -> Result<(), Fault>
    ensures { Opened lower.now upper.now swept centre (sheet_of sheet.old) result (sheet_of sheet.new) }
{
    let over = ChannelBox::opened(lower, upper, swept, centre)?;
    sheet.over = stored(&over);
    sheet.held = 0;
    Ok(())
}

pub fn open(sheet: &mut CSheet, lower: &[i64], upper: &[i64], swept: usize, centre: i64) -> CAnswer
    ensures { Opens lower.now upper.now swept centre sheet.old result sheet.new }
{
    let opened = opened(sheet, lower, upper, swept, centre);
    answer(opened.map(|()| Answer::Accepted))
}

// The last line is held no longer.
pub(crate) fn struck(sheet: &mut CSheet) -> Result<(), Fault>
    ensures { Struck (sheet_of sheet.old) result (sheet_of sheet.new) }
{
    sheet.whole();
    if sheet.held == 0 {
        return Err(Cause::NoLine.at(0));
    }
    sheet.held -= 1;
    Ok(())
}

pub fn strike(sheet: &mut CSheet) -> CAnswer
    ensures { Strikes sheet.old result sheet.new }
{
    let struck = struck(sheet);
    answer(struck.map(|()| Answer::Accepted))
}

// The held lines are read, and written as bytes.
pub(crate) fn written(sheet: &CSheet, out: &mut [u8]) -> Result<usize, Fault>
    ensures { Written (sheet_of sheet.now) out.old result out.new }
{
    let (lines, held) = sheet.table();
    writer::write(&lines[..held], out)
}

pub fn write(sheet: &CSheet, out: &mut [u8]) -> CAnswer
    ensures { Writes sheet.now out.old result out.new }
{
    let written = written(sheet, out);
    answer(written.map(|n| Answer::Length(n)))
}
