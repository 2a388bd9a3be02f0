// Looks at the lines of a desk.
ghost use Rattle.std.specs.Prelude.{[], codes};
ghost use Rattle.desk.specs.Answers.{RecordSays};
ghost use Rattle.desk.specs.Told.{SaysAround, line_words};

use crate::desk::{Desk, MEMORY};
use crate::texts::Held;
use kind::NumberKind;
use marks::Units;
use slope::Record;
use std::alloc::{AllocError, Global};

// What a line of the memory holds.
fn held<K: Units>(
    heap: Global,
    call: &str,
    line: usize,
    record: Record<K>,
) -> Result<String, AllocError>
    ensures { SaysAround (line_words call.now line) [] result }
{
    let held = Held { record };
    let words = format!(in heap; "{held}")?;
    format!(in heap; "{call} {line}: {words}")
}

impl<K: Units> Desk<K> {
    // The working line of a held line.
    pub fn record(&self, heap: Global, line: usize) -> Result<String, AllocError>
        ensures { RecordSays self.now line result }
    {
        if line >= self.sheet.held() {
            return format!(in heap; "record {line}: not held");
        }
        held(heap, "record", line, self.working[line.min(MEMORY - 1)])
    }

    // A line of the memory, held or not.
    pub fn working(&self, heap: Global, line: usize) -> Result<String, AllocError>
        ensures { SaysAround (line_words (codes "working") line) [] result }
    {
        held(heap, "working", line, self.working[line.min(MEMORY - 1)])
    }

    pub fn spare(&self, heap: Global, line: usize) -> Result<String, AllocError>
        ensures { SaysAround (line_words (codes "spare") line) [] result }
    {
        held(heap, "spare", line, self.spare[line.min(MEMORY - 1)])
    }
}
