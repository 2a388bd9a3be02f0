// The program: scripts of calls, and the windows of a station.
#![tactic(auto)]

mod replay;
mod stop;
#[cfg(test)]
mod tests;
mod windows;

use script::Problem;
use std::alloc::Global;
use std::env::{self, Args};
use std::io::{self, ErrorKind};
use std::iter::Skip;
use std::process::ExitCode;
use stop::{Stop, USAGE, misused};

// Arguments that cannot be had.
fn unknown(heap: Global, error: io::Error) -> Stop {
    match error.kind() {
        ErrorKind::InvalidData => misused(heap, "an argument cannot be read as text"),
        _ => Stop::Memory,
    }
}

// No word may be left.
fn end(heap: Global, words: &mut Skip<Args>) -> Result<(), Stop> {
    match words.next() {
        Some(word) => Err(misused(heap, Problem::Surplus.of(word.as_str()))),
        None => Ok(()),
    }
}

fn run(rt: &HostRuntime) -> Result<(), Stop> {
    let heap = rt.alloc();
    let mut words = env::args(rt).map_err(|error| unknown(heap, error))?.skip(1);
    let Some(command) = words.next() else {
        return Ok(rt.println(USAGE)?);
    };
    match command.as_str() {
        "replay" => {
            let file = words.next();
            end(heap, &mut words)?;
            replay::replay(rt, file)
        }
        "windows" => {
            let formula = words.next();
            let kind = words.next();
            end(heap, &mut words)?;
            windows::windows(rt, formula, kind)
        }
        word => Err(Stop::Arguments(format!(in heap; "'{word}' is no command")?)),
    }
}

// What ends the program early is said to standard error. (If that fails too, the status alone says it.)
fn main(rt: HostRuntime) -> ExitCode {
    let Err(stop) = run(&rt) else {
        return ExitCode::SUCCESS;
    };
    let _ = eprintln!(rt; "huqabo: {stop}");
    ExitCode::FAILURE
}
