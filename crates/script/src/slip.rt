// What is wrong with a line of a script.
ghost use Rattle.std.specs.Prelude.{◌≡◌};
ghost use Rattle.script.specs.Slips.{fault_of, no_memory};

use std::alloc::{AllocError, AllocFailed};
use std::fmt;

#[derive(Clone, Copy, Debug, PartialEq, Eq)]
pub enum Problem {
    NoCall,
    NoKind,
    NoOperation,
    Missing,
    Surplus,
    Expected(&'static str),
    NoNumber,
    NoIndex,
    Beyond,
    NoByte,
    NoMemory,
}

impl Problem {
    // The slip of a word that has the problem.
    pub fn of(self, word: &str) -> Slip<'_>
        ensures word { result.word.now ≡ word.now }
        ensures problem { result.problem ≡ self }
    {
        Slip {
            word,
            problem: self,
        }
    }
}

impl fmt::Display for Problem {
    fn fmt<W: fmt::Write>(&self, f: &mut fmt::Formatter<W>) -> fmt::Result {
        match self {
            Problem::NoCall => write!(f, "is no call"),
            Problem::NoKind => write!(f, "is no number kind"),
            Problem::NoOperation => write!(f, "is no operation"),
            Problem::Missing => write!(f, "wants one more word behind it"),
            Problem::Surplus => write!(f, "is one word too many"),
            Problem::Expected(word) => write!(f, "stands where '{word}' is expected"),
            Problem::NoNumber => write!(f, "is no whole number of 64 bits"),
            Problem::NoIndex => write!(f, "is no number of a line or a channel"),
            Problem::Beyond => write!(f, "is beyond the 128 lines of the memory"),
            Problem::NoByte => write!(f, "is no byte in two hexadecimal digits"),
            Problem::NoMemory => write!(f, "finds no memory"),
        }
    }
}

// A problem and the word that has it.
#[derive(Clone, Copy, Debug, PartialEq, Eq)]
pub struct Slip<'a> {
    pub word: &'a str,
    pub problem: Problem,
}

impl fmt::Display for Slip<'_> {
    fn fmt<W: fmt::Write>(&self, f: &mut fmt::Formatter<W>) -> fmt::Result {
        let word = self.word;
        let problem = self.problem;
        write!(f, "'{word}' {problem}")
    }
}

impl From<AllocError> for Slip<'_> {
    ghost from_gives = { λ _ slip. fault_of slip ≡ no_memory };

    fn from(_error: AllocError) -> Self {
        Problem::NoMemory.of("the line")
    }
}

impl<T: Drop> From<AllocFailed<T>> for Slip<'_> {
    ghost from_gives = { λ _ slip. fault_of slip ≡ no_memory };

    fn from(_refused: AllocFailed<T>) -> Self {
        AllocError.into()
    }
}
