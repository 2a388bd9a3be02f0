// The windows of a station: the last line of a formula is reported for each.
use crate::stop::{Place, Stop, misused, slipped, text_of, unopened, unread};
use desk::Station;
use report::Report;
use script::{KindName, Problem, append_bytes, counts_of};
use std::alloc::Global;
use std::io::{BufRead, BufReader};
use std::{fmt, fs};
use window::Refused;

// The formula of a file with bytes in hexadecimal. Lines that begin with # are passed over. All share the memory that one is held in.
pub fn formula_of<R: BufRead + Drop>(
    heap: Global,
    name: &str,
    mut file: R,
) -> Result<Vec<u8>, Stop> {
    let mut bytes = Vec::new(heap);
    let mut line_bytes = Vec::new(heap);
    for line in 1..u64::MAX {
        let place = Place::Formula(line, name);
        line_bytes.clear();
        let read = file.read_until(b'\n', &mut line_bytes);
        if read.map_err(|error| unread(heap, place, error))? == 0 {
            break;
        }
        let text = text_of(heap, place, line_bytes.as_slice())?;
        if !text.starts_with("#") {
            append_bytes(&mut bytes, text).map_err(|slip| slipped(heap, place, slip))?;
        }
    }
    Ok(bytes)
}

fn kind_of(heap: Global, name: Option<String>) -> Result<KindName, Stop> {
    let Some(word) = name else {
        return Ok(KindName::Fixed);
    };
    word.as_str().parse().map_err(|problem: Problem| misused(heap, problem.of(word.as_str())))
}

// What became of the windows.
#[derive(Clone, Copy)]
struct Tally {
    reported: u64,
    refused: u64,
}

impl Tally {
    fn count(&mut self, outcome: Result<Report, Refused>) {
        match outcome {
            Ok(_) => self.reported = self.reported.saturating_add(1),
            Err(_) => self.refused = self.refused.saturating_add(1),
        }
    }
}

impl fmt::Display for Tally {
    fn fmt<W: fmt::Write>(&self, f: &mut fmt::Formatter<W>) -> fmt::Result {
        let Tally { reported, refused } = *self;
        let windows = reported.saturating_add(refused);
        write!(
            f,
            "windows {windows}, reported {reported}, refused {refused}"
        )
    }
}

// Opens the window of a line, prints what comes of it and answers that.
fn step(
    rt: &HostRuntime,
    station: &mut Station,
    formula: &[u8],
    number: u64,
    text: &str,
) -> Result<Result<Report, Refused>, Stop> {
    let heap = rt.alloc();
    let counts = counts_of(heap, text).map_err(|slip| slipped(heap, Place::Line(number), slip))?;
    let outcome = station.window(formula, counts.lower.as_slice(), counts.upper.as_slice());
    match outcome {
        Ok(report) => println!(rt; "window {number}: {report}")?,
        Err(refused) => println!(rt; "window {number}: {refused}")?,
    }
    Ok(outcome)
}

// Reports the formula for the window of each line.
pub fn steps<R: BufRead + Drop>(
    rt: &HostRuntime,
    kind: KindName,
    formula: &[u8],
    windows: R,
) -> Result<(), Stop> {
    let heap = rt.alloc();
    let mut station = Station::blank(kind);
    let mut tally = Tally {
        reported: 0,
        refused: 0,
    };
    for (number, text) in (1u64..).zip(windows.lines(heap)) {
        let text = text.map_err(|error| unread(heap, Place::Line(number), error))?;
        tally.count(step(rt, &mut station, formula, number, text.as_str())?);
    }
    println!(rt; "{tally}")?;
    Ok(())
}

pub fn windows(
    rt: &HostRuntime,
    formula: Option<String>,
    kind: Option<String>,
) -> Result<(), Stop> {
    let heap = rt.alloc();
    let name = formula.ok_or_else(|| misused(heap, Problem::Missing.of("windows")))?;
    let kind = kind_of(heap, kind)?;
    let file = fs::open(rt, name.as_str()).map_err(|error| unopened(heap, name.as_str(), error))?;
    let file = BufReader::new(heap, file).map_err(|_| Stop::Memory)?;
    let formula = formula_of(heap, name.as_str(), file)?;
    let windows = BufReader::new(heap, rt.stdin()).map_err(|_| Stop::Memory)?;
    steps(rt, kind, formula.as_slice(), windows)
}
