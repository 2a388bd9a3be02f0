// A station: a desk of the kind in use.
ghost use Rattle.std.specs.Prelude.{◌≡◌};
ghost use Rattle.desk.specs.Answers.{AnswersAt, AnswersIn, Begins};
ghost use Rattle.desk.specs.Begun.{BeginsAs};
ghost use Rattle.desk.specs.Dialogue.{DialoguesSound};
ghost use Rattle.desk.specs.Windows.{Stays, window_of};
ghost use Rattle.script.specs.declared.call.KindName.TheVariants as kinds;

use crate::desk::Desk;
use fixed::Fixed;
use report::Report;
use script::{Call, KindName};
use sliding::Sliding;
use std::alloc::{AllocError, Global};
use window::Refused;

#[derive(Drop)]
pub enum Station {
    Fixed(Desk<Fixed>),
    Sliding(Desk<Sliding>),
}

// A station of each kind is made in a function of its own: what one needs on the stack is not set up for the other.
#[inline(never)]
fn fixed() -> Station
    ensures { BeginsAs kinds.Fixed result }
{
    Station::Fixed(Desk::blank())
}

#[inline(never)]
fn sliding() -> Station
    ensures { BeginsAs kinds.Sliding result }
{
    Station::Sliding(Desk::blank())
}

impl Station {
    // A blank sheet of a kind.
    pub fn blank(kind: KindName) -> Station
        ensures { BeginsAs kind result }
    {
        match kind {
            KindName::Fixed => fixed(),
            KindName::Sliding => sliding(),
        }
    }

    // A desk of the other kind takes the place of this one.
    #[inline(never)]
    fn turn(&mut self, kind: KindName)
        ensures { BeginsAs kind self.new }
    {
        match kind {
            KindName::Fixed => *self = fixed(),
            KindName::Sliding => *self = sliding(),
        }
    }

    // Begins anew where the call names a kind: a desk of that kind begins where it stands.
    fn begin(&mut self, call: &Call)
        ensures { Begins call.now self.old self.new }
    {
        if let Call::Kind(kind) = call {
            match (&mut *self, kind) {
                (Station::Fixed(desk), KindName::Fixed) => desk.begin(),
                (Station::Sliding(desk), KindName::Sliding) => desk.begin(),
                _ => self.turn(*kind),
            }
        }
    }

    // Answers in the kind in use.
    fn answer_in(&mut self, heap: Global, call: &Call) -> Result<String, AllocError>
        ensures { AnswersIn call.now self.old self.new result }
    {
        match self {
            Station::Fixed(desk) => desk.answer(heap, call),
            Station::Sliding(desk) => desk.answer(heap, call),
        }
    }

    // Makes a call, and answers in words. After any dialogue the sheet tells the truth.
    pub fn answer(&mut self, heap: Global, call: &Call) -> Result<String, AllocError>
        ensures answers { AnswersAt call.now self.old self.new result }
        ensures law { DialoguesSound }
    {
        self.begin(call);
        self.answer_in(heap, call)
    }

    // Opens a window's box, reads the formula and reports its last line, in the kind in use.
    pub fn window(
        &mut self,
        formula: &[u8],
        lower: &[i64],
        upper: &[i64],
    ) -> Result<Report, Refused>
        ensures answer { result ≡ window_of self.old lower.now upper.now formula.now }
        ensures stays { Stays self.old self.new }
    {
        match self {
            Station::Fixed(desk) => desk.window(formula, lower, upper),
            Station::Sliding(desk) => desk.window(formula, lower, upper),
        }
    }
}
