// A station's windows.
ghost use Rattle.std.specs.Prelude.{◌≡◌, ◌≤◌, length, map, take, drop, min, true};
ghost use Rattle.crossing.specs.Sheets.{box_in};
ghost use Rattle.crossing.specs.Standing.{Standing};
ghost use Rattle.crossing.specs.Windows.{answered_window, report_over, window_answer};
ghost use Rattle.crossing.specs.Windows as windows;
ghost use Rattle.fault.specs.Refusals.{after};
ghost use Rattle.sheet.specs.Contents.{contents};

use crate::answers::{answer, reported};
use crate::formula::{formula_of, report_in};
use crate::marks::Crossing;
use crate::memory::{CAnswer, CBox};
use crate::room::Room;
use crate::standing::constants;
use fault::{Cause, Fault};
use line::Line;
use report::Report;
use runs::Opening;
use sheet::Sheet;
use slope::Record;
use window::{Refused, line_over};

fn told(window: Result<Report, Refused>) -> CAnswer
    ensures { result ≡ answered_window window }
{
    match window {
        Ok(report) => reported(Ok(report)),
        Err(refused) => answer(Err(refused.fault)),
    }
}

// The report of a line of a formula that was read.
fn window_in<K: Crossing>(
    lines: &[Line],
    standing: bool,
    working: &mut [Record<K>],
    line: usize,
    over: &CBox,
) -> Result<Report, Fault>
    requires room { length lines.now ≤ length working.old }
    requires standing { standing ≡ true → Standing K.NumberKind.model lines.now working.old }
    ensures value { result ≡ after (box_in over.now) (λ b. report_over K.NumberKind.model b lines.now line) }
    ensures standing { standing ≡ true → Standing K.NumberKind.model lines.now working.new }
{
    let over = over.opened()?;
    report_in(lines, standing, working, &over, line)
}

// The same for bytes that may be no formula.
fn window_over<K: Crossing>(
    sheet: &mut Sheet,
    working: &mut [Record<K>],
    bytes: &[u8],
    line: usize,
    over: &CBox,
) -> CAnswer
    requires { length working.old ≡ 64 }
    ensures { result ≡ window_answer K.NumberKind.model bytes.now line over.now }
{
    let n = over.channels;
    if n > 8 {
        return answer(Err(Cause::Channels.at(0)));
    }
    let opening = Opening {
        lower: &over.lower[..n],
        upper: &over.upper[..n],
        swept: over.swept,
        centre: over.centre,
    };
    told(line_over(sheet, working, opening, bytes, line))
}

// The same as C has it.
fn answer_in<K: Crossing>(
    lines: &[Line],
    standing: bool,
    working: &mut [Record<K>],
    line: usize,
    over: &CBox,
) -> CAnswer
    requires room { length lines.now ≤ length working.old }
    requires standing { standing ≡ true → Standing K.NumberKind.model lines.now working.old }
    ensures value { result ≡ windows.answer_in K.NumberKind.model lines.now line over.now }
    ensures standing { standing ≡ true → Standing K.NumberKind.model lines.now working.new }
{
    reported(window_in(lines, standing, working, line, over))
}

// The records of the constants are made once for all windows, unless one is refused.
fn windows_in<K: Crossing>(
    lines: &[Line],
    working: &mut [Record<K>],
    line: usize,
    boxes: &[CBox],
    answers: &mut [CAnswer],
)
    requires working { length lines.now ≤ length working.old }
    requires room { length answers.old ≡ length boxes.now }
    ensures { answers.new ≡ map (windows.answer_in K.NumberKind.model lines.now line) boxes.now }
{
    let standing = constants(lines, working).is_ok();
    for i in 0..boxes.len() {
        answers[i] = answer_in(lines, standing, working, line, &boxes[i]);
    }
}

fn windows_over<K: Crossing>(
    working: &mut [Record<K>],
    bytes: &[u8],
    line: usize,
    boxes: &[CBox],
    answers: &mut [CAnswer],
)
    requires working { length working.old ≡ 64 }
    requires room { length answers.old ≡ length boxes.now }
    ensures { answers.new ≡ map (window_answer K.NumberKind.model bytes.now line) boxes.now }
{
    let mut sheet = Sheet::blank();
    for i in 0..boxes.len() {
        answers[i] = window_over(&mut sheet, working, bytes, line, &boxes[i]);
    }
}

// Answers window after window, as many as there are boxes and answers, and returns how many that is. A formula is read once for all of
// them; bytes that are none are read anew for each, since a line may be refused over its box before the bad one is reached.
pub fn windows<K: Crossing>(
    bytes: &[u8],
    line: usize,
    boxes: &[CBox],
    answers: &mut [CAnswer],
    room: &mut Room<K>,
) -> usize
    ensures count { result ≡ min (length boxes.now) (length answers.old) }
    ensures answers { take result answers.new ≡ map (window_answer K.NumberKind.model bytes.now line) (take result boxes.now) }
    ensures rest { drop result answers.new ≡ drop result answers.old }
{
    let windows = boxes.len().min(answers.len());
    match formula_of(bytes) {
        Ok(formula) => windows_in(
            formula.lines(),
            &mut room.records,
            line,
            &boxes[..windows],
            &mut answers[..windows],
        ),
        Err(_) => windows_over(
            &mut room.records,
            bytes,
            line,
            &boxes[..windows],
            &mut answers[..windows],
        ),
    }
    windows
}
