// Answering a script of calls.
use crate::stop::{Place, Stop, slipped, text_of, unopened, unread};
use desk::Station;
use script::{KindName, call_of};
use std::fs;
use std::io::{BufRead, BufReader};

// Makes the call of a line, if it has one, and prints the answer.
fn step(rt: &HostRuntime, station: &mut Station, line: u64, text: &str) -> Result<(), Stop> {
    let heap = rt.alloc();
    let call = call_of(heap, text).map_err(|slip| slipped(heap, Place::Line(line), slip))?;
    if let Some(call) = call {
        rt.println(station.answer(heap, &call)?)?;
    }
    Ok(())
}

// Makes the call of each line. All lines share the memory that one is held in.
pub fn steps<R: BufRead + Drop>(rt: &HostRuntime, mut script: R) -> Result<(), Stop> {
    let heap = rt.alloc();
    let mut station = Station::blank(KindName::Fixed);
    let mut bytes = Vec::new(heap);
    for line in 1..u64::MAX {
        let place = Place::Line(line);
        bytes.clear();
        let read = script.read_until(b'\n', &mut bytes);
        if read.map_err(|error| unread(heap, place, error))? == 0 {
            break;
        }
        let text = text_of(heap, place, bytes.as_slice())?;
        step(rt, &mut station, line, text)?;
    }
    Ok(())
}

pub fn replay(rt: &HostRuntime, file: Option<String>) -> Result<(), Stop> {
    let heap = rt.alloc();
    let Some(name) = file else {
        return steps(
            rt,
            BufReader::new(heap, rt.stdin()).map_err(|_| Stop::Memory)?,
        );
    };
    let script = fs::open(rt, name.as_str()).map_err(|error| unopened(heap, name.as_str(), error))?;
    steps(rt, BufReader::new(heap, script).map_err(|_| Stop::Memory)?)
}
