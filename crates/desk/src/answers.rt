// Answers in words.
ghost use Rattle.std.specs.Prelude.{◌++◌, codes, take};
ghost use Rattle.desk.specs.Told.{Says, SaysAround, Told, hex_bytes, refusal_words, report_words};

use fault::Fault;
use marks::Decimal;
use report::Report;
use runs::Answer;
use std::alloc::{AllocError, Global};

// The first so many bytes.
fn written(heap: Global, call: &str, bytes: &[u8], length: usize) -> Result<String, AllocError>
    ensures { Says (call.now ++ codes ":" ++ hex_bytes (take length bytes.now)) result }
{
    let mut text = format!(in heap; "{call}:")?;
    let written = &bytes[..length.min(bytes.len())];
    for byte in written {
        write!(text, " {byte:02x}")?;
    }
    Ok(text)
}

// What a report is worth.
fn worth(heap: Global, report: Report) -> Result<String, AllocError> {
    let value = Decimal {
        units: report.middle.saturating_mul(256),
    };
    let about = Decimal {
        units: report.margin.saturating_mul(256),
    };
    format!(in heap; "{value} +- {about}")
}

// A report, and behind it what it is worth.
fn reported(heap: Global, call: &str, report: Report) -> Result<String, AllocError>
    ensures { SaysAround (call.now ++ report_words report) (codes ")") result }
{
    let worth = worth(heap, report)?;
    let Report { middle, margin } = report;
    format!(in heap; "{call}: middle {middle} margin {margin} ({worth})")
}

// The number of a refusal and its place, and behind them its cause in words.
fn refused(heap: Global, call: &str, fault: Fault) -> Result<String, AllocError>
    ensures { SaysAround (call.now ++ refusal_words fault) (codes ")") result }
{
    let Fault { cause, place } = fault;
    let words = format!(in heap; "{cause}")?;
    let number = cause.number();
    format!(in heap; "{call}: refused {number} at {place} ({words})")
}

// What a call answers, or why it is refused. `out` has the bytes that it wrote.
pub fn told(
    heap: Global,
    call: &str,
    answer: Result<Answer, Fault>,
    out: &[u8],
) -> Result<String, AllocError>
    ensures { Told call.now answer out.now result }
{
    match answer {
        Ok(Answer::Accepted) => format!(in heap; "{call}: accepted"),
        Ok(Answer::Line(number)) => format!(in heap; "{call}: line {number}"),
        Ok(Answer::Length(length)) => written(heap, call, out, length),
        Ok(Answer::Report(report)) => reported(heap, call, report),
        Err(fault) => refused(heap, call, fault),
    }
}
