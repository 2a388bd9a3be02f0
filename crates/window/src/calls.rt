// The calls of a window, each made by `runs::make`.
ghost use Rattle.std.specs.Prelude.{◌≡◌, Ok, Result, length, take};
ghost use Rattle.fault.specs.declared.fault.Fault.{Fault};
ghost use Rattle.report.specs.declared.answer.Report.{Report};
ghost use Rattle.runs.specs.Runs.{accepted, handed};
ghost use Rattle.runs.specs.declared.call.Answer.TheVariants as answers;
ghost use Rattle.sheet.specs.Calls.{Opened, Recorded, report};
ghost use Rattle.sheet.specs.Contents.{contents};
ghost use Rattle.sheet.specs.Reading.{Read};
ghost use Rattle.window.specs.Windows.{at_step};
ghost use Rattle.window.specs.declared.refused.Step.TheVariants as steps;

use crate::refused::{Refused, Step};
use fault::Fault;
use kind::NumberKind;
use report::Report;
use runs::{Answer, Call, Opening, make};
use sheet::Sheet;
use slope::Record;

// What a call that only accepts says of the window.
fn taken(step: Step, answer: Result<Answer, Fault>) -> Result<(), Refused>
    ensures { (r : Result (Unit {0}) Fault) → answer ≡ accepted r → result ≡ at_step step r Ok }
{
    match answer {
        Ok(_) => Ok(()),
        Err(fault) => Err(Refused { step, fault }),
    }
}

// What a report says of it.
fn reported(answer: Result<Answer, Fault>) -> Result<Report, Refused>
    requires { (r : Result Report Fault) × (answer ≡ handed answers.Report r) }
    ensures { (r : Result Report Fault) → answer ≡ handed answers.Report r → result ≡ at_step steps.Report r Ok }
{
    match answer {
        Ok(Answer::Report(report)) => Ok(report),
        Ok(_) => unreachable!(),
        Err(fault) => Err(Refused {
            step: Step::Report,
            fault,
        }),
    }
}

pub(crate) fn open<K: NumberKind>(
    sheet: &mut Sheet,
    working: &mut [Record<K>],
    over: Opening<'_>,
) -> Result<(), Refused>
    ensures call { (r : Result (Unit {0}) Fault) × (result ≡ at_step steps.Open r Ok) × Opened over.entry.lower.now over.entry.upper.now over.entry.swept over.entry.centre (contents sheet.old) r (contents sheet.new) }
    ensures working { working.new ≡ working.old }
{
    let mut spare: [Record<K>; 0] = [];
    let answer = make(sheet, working, &mut spare, &mut [], Call::Open(over));
    taken(Step::Open, answer)
}

pub(crate) fn read<K: NumberKind>(
    sheet: &mut Sheet,
    working: &mut [Record<K>],
    formula: &[u8],
) -> Result<(), Refused>
    ensures { (r : Result (Unit {0}) Fault) × (result ≡ at_step steps.Read r Ok) × Read K.NumberKind.model formula.now (contents sheet.old) working.old r (contents sheet.new) working.new }
{
    let mut spare: [Record<K>; 0] = [];
    let answer = make(sheet, working, &mut spare, &mut [], Call::Read(formula));
    taken(Step::Read, answer)
}

// The report of a line, where the working lines have the records of the held lines.
pub(crate) fn report_of<K: NumberKind>(
    sheet: &mut Sheet,
    working: &mut [Record<K>],
    line: usize,
) -> Result<Report, Refused>
    ensures answer { Recorded K.NumberKind.model (contents sheet.old) working.old → result ≡ at_step steps.Report (report K.NumberKind.model (contents sheet.old) (length working.old) (take (length (contents sheet.old).lines) working.old) line) Ok }
    ensures sheet { contents sheet.new ≡ contents sheet.old }
    ensures working { working.new ≡ working.old }
{
    let mut spare: [Record<K>; 0] = [];
    let answer = make(sheet, working, &mut spare, &mut [], Call::Report(line));
    reported(answer)
}
