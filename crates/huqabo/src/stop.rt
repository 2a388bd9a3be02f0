// Why the program ends early, in words.
ghost use Rattle.std.specs.Prelude.{◌≡◌, MatchResult};
ghost use Rattle.std.specs.Str.{IsUtf8};

use script::Slip;
use std::alloc::{AllocError, Global};
use std::io::ErrorKind;
use std::{fmt, io, str};

pub const USAGE: &str = "\
huqabo replay [FILE]            answers calls, one a line, from FILE or standard input
huqabo windows FORMULA [KIND]   reports the formula of FORMULA, in hexadecimal, for each window of standard input

A window is a line of counts: the lower and the upper end of each channel in turn. KIND is fixed or sliding.
Calls: kind, lend, open, add, strike, move, read, write, report, record, working, spare. See docs/PROGRAM.md.";

#[derive(Debug, Drop)]
pub enum Stop {
    // what is wrong with the arguments
    Arguments(String),
    // what is wrong with the input
    Input(String),
    // an answer could not be written
    Output(io::Error),
    Memory,
}

impl fmt::Display for Stop {
    fn fmt<W: fmt::Write>(&self, f: &mut fmt::Formatter<W>) -> fmt::Result {
        match self {
            Stop::Arguments(words) => write!(f, "{words}\n\n{USAGE}"),
            Stop::Input(words) => write!(f, "{words}"),
            Stop::Output(error) => write!(f, "the answers cannot be written: {error}"),
            Stop::Memory => write!(f, "no memory is left"),
        }
    }
}

// The program's own `?` is for what it writes: an error of what it reads is given its words where it is met.
impl From<io::Error> for Stop {
    fn from(error: io::Error) -> Stop {
        Stop::Output(error)
    }
}

impl From<AllocError> for Stop {
    fn from(_error: AllocError) -> Stop {
        Stop::Memory
    }
}

// The stop of an input that is wrong, in words that are to be made.
fn input(words: Result<String, AllocError>) -> Stop {
    words.map_or_else(Stop::from, Stop::Input)
}

// A line of standard input or of a script, or one of a formula's file.
#[derive(Clone, Copy)]
pub enum Place<'a> {
    Line(u64),
    Formula(u64, &'a str),
}

impl fmt::Display for Place<'_> {
    fn fmt<W: fmt::Write>(&self, f: &mut fmt::Formatter<W>) -> fmt::Result {
        match self {
            Place::Line(line) => write!(f, "line {line}"),
            Place::Formula(line, file) => write!(f, "line {line} of '{file}'"),
        }
    }
}

// A word of a line is wrong.
pub fn slipped(heap: Global, place: Place<'_>, slip: Slip<'_>) -> Stop {
    input(format!(in heap; "{place}: {slip}"))
}

// A line is no text.
fn misread(heap: Global, place: Place<'_>) -> Stop {
    input(format!(in heap; "{place}: the input cannot be read as text"))
}

// The text of a line. (Its line break is white space to its words.)
pub fn text_of<'a>(heap: Global, place: Place<'_>, line: &'a [u8]) -> Result<&'a str, Stop>
    ensures { MatchResult result (λ text. text.now ≡ line.now) (λ _. IsUtf8 line.now → ⊥) }
{
    str::from_utf8(line).map_err(|_| misread(heap, place))
}

// A line cannot be read.
pub fn unread(heap: Global, place: Place<'_>, error: io::Error) -> Stop {
    match error.kind() {
        ErrorKind::OutOfMemory => Stop::Memory,
        ErrorKind::InvalidData => misread(heap, place),
        _ => input(format!(in heap; "{place}: the input cannot be read: {error}")),
    }
}

// A file cannot be opened.
pub fn unopened(heap: Global, file: &str, error: io::Error) -> Stop {
    input(format!(in heap; "the file '{file}' cannot be read: {error}"))
}

// The arguments are wrong.
pub fn misused(heap: Global, words: impl fmt::Display + Drop) -> Stop {
    format!(in heap; "{words}").map_or_else(Stop::from, Stop::Arguments)
}
