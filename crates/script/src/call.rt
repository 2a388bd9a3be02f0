// Calls of a script.
ghost use Rattle.script.specs.Kinds.{Named};

use crate::counts::Counts;
use crate::slip::Problem;
use line::Line;
use std::fmt;
use std::str::FromStr;

#[derive(Clone, Copy, Debug, PartialEq, Eq)]
pub enum KindName {
    Fixed,
    Sliding,
}

impl FromStr for KindName {
    type Err = Problem;

    ghost from_str_gives = { Named };

    fn from_str(word: &str) -> Result<KindName, Problem> {
        match word {
            "fixed" => Ok(KindName::Fixed),
            "sliding" => Ok(KindName::Sliding),
            _ => Err(Problem::NoKind),
        }
    }
}

impl fmt::Display for KindName {
    fn fmt<W: fmt::Write>(&self, f: &mut fmt::Formatter<W>) -> fmt::Result {
        match self {
            KindName::Fixed => write!(f, "fixed"),
            KindName::Sliding => write!(f, "sliding"),
        }
    }
}

#[derive(Drop)]
pub struct Opening {
    pub counts: Counts,
    pub swept: usize,
    pub centre: i64,
}

#[derive(Clone, Copy)]
pub struct Moving {
    pub channel: usize,
    pub lower: i64,
    pub upper: i64,
    pub centre: i64,
}

#[derive(Drop)]
pub enum Call {
    // a blank sheet of a kind
    Kind(KindName),
    // so many working and spare lines are lent from now on
    Lend(usize, usize),
    Open(Opening),
    Add(Line),
    Strike,
    Move(Moving),
    Read(Vec<u8>),
    // into so many bytes, or into enough
    Write(Option<usize>),
    Report(usize),
    // the working line of a held line
    Record(usize),
    // a line of the memory, held or not
    Working(usize),
    Spare(usize),
}
