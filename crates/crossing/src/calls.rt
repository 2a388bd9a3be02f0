// The calls over memory.
ghost use Rattle.std.specs.Prelude.{◌≡◌, length};
ghost use Rattle.crossing.specs.Memory.{Beyond, in_memory};
ghost use Rattle.runs.specs.Law.{GoesOn, RunsSound};
ghost use Rattle.runs.specs.Runs.{Made, event, handed};
ghost use Rattle.runs.specs.declared.call.Answer.TheVariants as answers;
ghost use Rattle.runs.specs.Runs as runs;

use crate::adding::add_line;
use crate::marks::Crossing;
use crate::means::Means;
use crate::memory::{CLine, CRecord, CSheet};
use crate::moving::moved;
use crate::plain::{opened, struck, written};
use crate::reading::read_formula;
use crate::reporting::report_line;
use crate::room::Room;
use fault::Fault;
use report::Report;
use runs::{Answer, Call};
use slope::Record;

// What a call answers that only accepts.
fn accepted(answer: Result<(), Fault>) -> Result<Answer, Fault>
    ensures { result ≡ runs.accepted answer }
{
    answer.map(|()| Answer::Accepted)
}

// What an add answers.
fn numbered(answer: Result<usize, Fault>) -> Result<Answer, Fault>
    ensures { result ≡ handed answers.Line answer }
{
    answer.map(|n| Answer::Line(n))
}

// What a write answers.
fn measured(answer: Result<usize, Fault>) -> Result<Answer, Fault>
    ensures { result ≡ handed answers.Length answer }
{
    answer.map(|n| Answer::Length(n))
}

// What a report answers.
fn told(answer: Result<Report, Fault>) -> Result<Answer, Fault>
    ensures { result ≡ handed answers.Report answer }
{
    answer.map(|r| Answer::Report(r))
}

// Each call reads and writes what it needs of memory, and no more.
#[inline(always)]
fn made<K: Crossing>(
    sheet: &mut CSheet,
    working: &mut [CRecord],
    spare: &mut [CRecord],
    out: &mut [u8],
    records: &mut [Record<K>],
    call: Call<'_>,
) -> Result<Answer, Fault>
    requires { length records.old ≡ 64 }
    ensures made { Made K.NumberKind.model (in_memory K.Crossing.mark_of sheet.old working.old spare.old out.old) (in_memory K.Crossing.mark_of sheet.new working.new spare.new out.new) result call.entry }
    ensures working { Beyond working.old working.new }
    ensures spare { Beyond spare.old spare.new }
{
    match call {
        Call::Open(o) => accepted(opened(sheet, o.lower, o.upper, o.swept, o.centre)),
        Call::Add(line) => numbered(add_line(sheet, working, records, CLine::form(line))),
        Call::Strike => accepted(struck(sheet)),
        Call::Move(v) => accepted(moved(sheet, working, spare, records, v)),
        Call::Read(bytes) => accepted(read_formula(sheet, working, records, bytes)),
        Call::Write => measured(written(sheet, out)),
        Call::Report(line) => told(report_line::<K>(sheet, working, line)),
    }
}

// Makes a call on a sheet in memory. After any run of calls the sheet tells the truth.
#[inline(always)]
pub fn call<K: Crossing>(
    sheet: &mut CSheet,
    working: &mut [CRecord],
    spare: &mut [CRecord],
    out: &mut [u8],
    room: &mut Room<K>,
    call: Call<'_>,
) -> Result<Answer, Fault>
    ensures made { Made K.NumberKind.model (in_memory K.Crossing.mark_of sheet.old working.old spare.old out.old) (in_memory K.Crossing.mark_of sheet.new working.new spare.new out.new) result call.entry }
    ensures run { GoesOn K.NumberKind.model (event call.entry (in_memory K.Crossing.mark_of sheet.old working.old spare.old out.old) result) (in_memory K.Crossing.mark_of sheet.old working.old spare.old out.old) (in_memory K.Crossing.mark_of sheet.new working.new spare.new out.new) }
    ensures law { RunsSound K.NumberKind.model }
    ensures working { Beyond working.old working.new }
    ensures spare { Beyond spare.old spare.new }
{
    made(sheet, working, spare, out, &mut room.records, call)
}
