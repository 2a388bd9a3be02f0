// A desk answers the calls of a script.
ghost use Rattle.desk.specs.Answers.{Answers};

use crate::desk::Desk;
use crate::desk::dealing::{moving, opening};
use kind::NumberKind;
use marks::Units;
use script::{Call, KindName};
use std::alloc::{AllocError, Global};

impl<K: Units> Desk<K> {
    // Makes a call, and answers in words. (The station has blanked the desk of a kind already.)
    pub fn answer(&mut self, heap: Global, call: &Call) -> Result<String, AllocError>
        ensures { Answers K.NumberKind.model call.now self.old self.new result }
    {
        match call {
            Call::Kind(KindName::Fixed) => format!(in heap; "kind: fixed"),
            Call::Kind(KindName::Sliding) => format!(in heap; "kind: sliding"),
            Call::Lend(working, spare) => {
                self.lend(*working, *spare);
                format!(in heap; "lend: {working} {spare}")
            }
            Call::Open(o) => self.call(heap, "open", opening(o)),
            Call::Add(line) => self.call(heap, "add", runs::Call::Add(*line)),
            Call::Strike => self.call(heap, "strike", runs::Call::Strike),
            Call::Move(m) => self.call(heap, "move", moving(*m)),
            Call::Read(bytes) => self.call(heap, "read", runs::Call::Read(bytes.as_slice())),
            Call::Write(room) => self.write(heap, *room),
            Call::Report(line) => self.report(heap, *line),
            Call::Record(line) => self.record(heap, *line),
            Call::Working(line) => self.working(heap, *line),
            Call::Spare(line) => self.spare(heap, *line),
        }
    }
}
