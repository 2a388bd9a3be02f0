// Reports of held lines.
ghost use Rattle.std.specs.Prelude.{◌≡◌, ◌≤◌, length, take};
ghost use Rattle.std.specs.List.{slice_get};
ghost use Rattle.fault.specs.Refusals.{found};
ghost use Rattle.fault.specs.declared.fault.Cause.TheVariants.{NoLine};
ghost use Rattle.rule.specs.Lent.{lent};
ghost use Rattle.sheet.specs.Contents.{contents};
ghost use Rattle.sheet.specs.Calls.{Reported};
ghost use Rattle.sheet.specs.Calls as calls;

use crate::sheet::Sheet;
use crate::sheet::lending::enough;
use fault::{Cause, Fault};
use kind::NumberKind;
use report::{Report, report_of};
use slope::Record;

impl Sheet {
    // The working line of a held line.
    fn working_line<'a, K: NumberKind>(
        &self,
        working: &'a [Record<K>],
        line: usize,
    ) -> Result<&'a Record<K>, Fault>
        requires { 64 ≤ length working.now }
        ensures { lent result ≡ found NoLine line (slice_get (take (length (contents self.now).lines) working.now) line) }
    {
        working[..self.held].get(line).ok_or(Cause::NoLine.at(line))
    }

    // (Apart from `report`, which promises less on working lines that lack a record.)
    fn report_line<K: NumberKind>(
        &self,
        working: &[Record<K>],
        line: usize,
    ) -> Result<Report, Fault>
        ensures { result ≡ calls.report K.NumberKind.model (contents self.now) (length working.now) (take (length (contents self.now).lines) working.now) line }
    {
        enough(working)?;
        let record = self.working_line(working, line)?;
        Ok(report_of(&self.over, record))
    }

    // The middle and the margin of a held line, by its working line.
    pub fn report<K: NumberKind>(&self, working: &[Record<K>], line: usize) -> Result<Report, Fault>
        ensures { Reported K.NumberKind.model line (contents self.now) working.now result }
    {
        self.report_line(working, line)
    }
}
