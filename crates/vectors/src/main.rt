// Scripts of calls with the answers that an independent exact model gives, answered again by the program's own code. What an
// answer has behind ` (` is left out of the comparison.
#![tactic(auto)]

use desk::Station;
use script::{KindName, call_of};
use std::alloc::{AllocError, Global};
use std::fs;

// The answer to a line of a script, if it is a call.
fn answer(heap: Global, station: &mut Station, text: &str) -> Result<Option<String>, AllocError> {
    match call_of(heap, text) {
        Ok(Some(call)) => Ok(Some(station.answer(heap, &call)?)),
        Ok(None) => Ok(None),
        Err(slip) => Ok(Some(String::from_str(heap, slip.word)?)),
    }
}

// What stands before ` (`.
fn told(answer: &str) -> &str {
    answer.split_once(" (").map_or(answer, |(told, _)| told)
}

// Whether an answer is the one expected; if not, prints both. (No ==: what differs is printed where it is found.)
fn same(rt: &HostRuntime, given: &str, wanted: &str) -> anyhow::Result<bool> {
    if told(given) == wanted {
        return Ok(true);
    }
    rt.println(given)?;
    print!(rt; "    expected: ")?;
    rt.println(wanted)?;
    Ok(false)
}

// Answers a script, and prints each answer that is not the one expected and how many are. (A zip of the two would pass over what
// one of them has too many.)
fn run(rt: &HostRuntime, name: &str) -> anyhow::Result<()> {
    let heap = rt.alloc();
    let script = fs::read_to_string(rt, format!(in heap; "{name}.script")?)?;
    let answers = fs::read_to_string(rt, format!(in heap; "{name}.answers")?)?;
    let mut expected = answers.lines();
    let mut station = Station::blank(KindName::Fixed);
    let mut right = 0u64;
    for text in script.lines() {
        let Some(given) = answer(heap, &mut station, text)? else {
            continue;
        };
        let Some(wanted) = expected.next() else {
            same(rt, given.as_str(), "no answer")?;
            break;
        };
        if same(rt, given.as_str(), wanted)? {
            right = right.saturating_add(1);
        }
    }
    if let Some(wanted) = expected.next() {
        same(rt, "no answer", wanted)?;
    }
    println!(rt; "{name}: {right} answers")?;
    Ok(())
}

// Each has its answers beside it.
const SCRIPTS: [&str; 13] = [
    "trials",
    "edges",
    "calls-101",
    "calls-102",
    "calls-103",
    "calls-104",
    "calls-105",
    "calls-106",
    "moves-edges",
    "moves-201",
    "moves-202",
    "moves-203",
    "moves-204",
];

fn main(rt: HostRuntime) -> anyhow::Result<()> {
    for name in SCRIPTS {
        run(&rt, name)?;
    }
    Ok(())
}
