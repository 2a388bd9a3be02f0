// Why a window has no report.
use fault::Fault;
use std::error::Error;
use std::fmt;

// A call of a window.
#[derive(Clone, Copy, PartialEq, Eq, Debug)]
pub enum Step {
    Open,
    Read,
    Report,
}

// The call that was refused, and why.
#[derive(Clone, Copy, PartialEq, Eq, Debug)]
pub struct Refused {
    pub step: Step,
    pub fault: Fault,
}

impl fmt::Display for Step {
    fn fmt<W: fmt::Write>(&self, f: &mut fmt::Formatter<W>) -> fmt::Result {
        f.write_str(match self {
            Step::Open => "open",
            Step::Read => "read",
            Step::Report => "report",
        })
    }
}

impl fmt::Display for Refused {
    fn fmt<W: fmt::Write>(&self, f: &mut fmt::Formatter<W>) -> fmt::Result {
        let Refused { step, fault } = *self;
        write!(f, "{step} {fault}")
    }
}

impl Error for Refused {}
