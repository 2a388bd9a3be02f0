// One call on a sheet, as the last one of a run.
ghost use Rattle.std.specs.Prelude.{◌≡◌};
ghost use Rattle.sheet.specs.Contents.{contents};
ghost use Rattle.runs.specs.Law.{GoesOn, RunsSound};
ghost use Rattle.runs.specs.Runs.{Made, event, handed, state};
ghost use Rattle.runs.specs.declared.call.Answer.TheVariants.{Length};
ghost use Rattle.runs.specs.Runs as runs;

use crate::call::{Answer, Call};
use fault::Fault;
use kind::NumberKind;
use sheet::Sheet;
use slope::Record;

// What a call answers that only accepts.
fn accepted(answer: Result<(), Fault>) -> Result<Answer, Fault>
    ensures { result ≡ runs.accepted answer }
{
    answer.map(|()| Answer::Accepted)
}

// What a write answers.
fn written(answer: Result<usize, Fault>) -> Result<Answer, Fault>
    ensures { result ≡ handed Length answer }
{
    answer.map(|n| Answer::Length(n))
}

fn made<K: NumberKind>(
    sheet: &mut Sheet,
    working: &mut [Record<K>],
    spare: &mut [Record<K>],
    out: &mut [u8],
    call: Call<'_>,
) -> Result<Answer, Fault>
    ensures { Made K.NumberKind.model (state (contents sheet.old) working.old spare.old out.old) (state (contents sheet.new) working.new spare.new out.new) result call.entry }
{
    match call {
        Call::Open(o) => accepted(sheet.open(o.lower, o.upper, o.swept, o.centre)),
        Call::Add(line) => sheet.add(working, line).map(|n| Answer::Line(n)),
        Call::Strike => accepted(sheet.strike()),
        Call::Move(v) => accepted(sheet.move_channel(
            working, spare, v.channel, v.lower, v.upper, v.centre,
        )),
        Call::Read(bytes) => accepted(sheet.read(working, bytes)),
        Call::Write => written(sheet.write(out)),
        Call::Report(line) => sheet.report(working, line).map(|r| Answer::Report(r)),
    }
}

// Makes a call. It goes on from every run of calls that led to this sheet and these working lines, and after any run the sheet tells
// the truth.
pub fn make<K: NumberKind>(
    sheet: &mut Sheet,
    working: &mut [Record<K>],
    spare: &mut [Record<K>],
    out: &mut [u8],
    call: Call<'_>,
) -> Result<Answer, Fault>
    ensures made { Made K.NumberKind.model (state (contents sheet.old) working.old spare.old out.old) (state (contents sheet.new) working.new spare.new out.new) result call.entry }
    ensures run { GoesOn K.NumberKind.model (event call.entry (state (contents sheet.old) working.old spare.old out.old) result) (state (contents sheet.old) working.old spare.old out.old) (state (contents sheet.new) working.new spare.new out.new) }
    ensures law { RunsSound K.NumberKind.model }
{
    made(sheet, working, spare, out, call)
}
