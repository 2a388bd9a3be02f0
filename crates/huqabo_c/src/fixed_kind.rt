// The calls at the fixed kind.
ghost use Rattle.std.specs.Prelude.{◌≡◌, length, map, take, drop, min};
ghost use Rattle.crossing.specs.Calls.{Adds, Moves, Opens, Reads, Reports, Strikes, Writes};
ghost use Rattle.crossing.specs.Marks.{fixed_of};
ghost use Rattle.crossing.specs.Windows.{window_answer};
ghost use Rattle.fixed.specs.Grid.{fixed_model};

use crossing::{CAnswer, CBox, CLine, CRecord, CSheet, Room};
use fixed::Fixed;
use runs::Moving;

#[unsafe(no_mangle)]
pub extern "C" fn huqabo_fixed_open(
    sheet: &mut CSheet,
    lower: &[i64],
    upper: &[i64],
    swept: usize,
    centre: i64,
) -> CAnswer
    ensures { Opens lower.now upper.now swept centre sheet.old result sheet.new }
{
    crossing::open(sheet, lower, upper, swept, centre)
}

#[unsafe(no_mangle)]
pub extern "C" fn huqabo_fixed_add(
    sheet: &mut CSheet,
    working: &mut [CRecord],
    line: &CLine,
) -> CAnswer
    ensures { Adds fixed_model fixed_of line.now sheet.old working.old result sheet.new working.new }
{
    crossing::add(sheet, working, &mut Room::<Fixed>::blank(), *line)
}

#[unsafe(no_mangle)]
pub extern "C" fn huqabo_fixed_strike(sheet: &mut CSheet) -> CAnswer
    ensures { Strikes sheet.old result sheet.new }
{
    crossing::strike(sheet)
}

#[unsafe(no_mangle)]
pub extern "C" fn huqabo_fixed_move(
    sheet: &mut CSheet,
    working: &mut [CRecord],
    spare: &mut [CRecord],
    channel: usize,
    lower: i64,
    upper: i64,
    centre: i64,
) -> CAnswer
    ensures { Moves fixed_model fixed_of channel lower upper centre sheet.old working.old spare.old result sheet.new working.new spare.new }
{
    let moving = Moving {
        channel,
        lower,
        upper,
        centre,
    };
    crossing::move_channel(sheet, working, spare, &mut Room::<Fixed>::blank(), moving)
}

#[unsafe(no_mangle)]
pub extern "C" fn huqabo_fixed_read(
    sheet: &mut CSheet,
    working: &mut [CRecord],
    bytes: &[u8],
) -> CAnswer
    ensures { Reads fixed_model fixed_of bytes.now sheet.old working.old result sheet.new working.new }
{
    crossing::read(sheet, working, &mut Room::<Fixed>::blank(), bytes)
}

#[unsafe(no_mangle)]
pub extern "C" fn huqabo_fixed_write(sheet: &CSheet, out: &mut [u8]) -> CAnswer
    ensures { Writes sheet.now out.old result out.new }
{
    crossing::write(sheet, out)
}

#[unsafe(no_mangle)]
pub extern "C" fn huqabo_fixed_report(sheet: &CSheet, working: &[CRecord], line: usize) -> CAnswer
    ensures { Reports fixed_model fixed_of line sheet.now working.now result }
{
    crossing::report::<Fixed>(sheet, working, line)
}

#[unsafe(no_mangle)]
pub extern "C" fn huqabo_fixed_windows(
    bytes: &[u8],
    line: usize,
    boxes: &[CBox],
    answers: &mut [CAnswer],
) -> usize
    ensures count { result ≡ min (length boxes.now) (length answers.old) }
    ensures answers { take result answers.new ≡ map (window_answer fixed_model bytes.now line) (take result boxes.now) }
    ensures rest { drop result answers.new ≡ drop result answers.old }
{
    crossing::windows(bytes, line, boxes, answers, &mut Room::<Fixed>::blank())
}
