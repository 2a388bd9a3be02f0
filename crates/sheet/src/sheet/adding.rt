// Adding one line.
ghost use Rattle.std.specs.Prelude.{◌≡◌, ◌<◌, length, take};
ghost use Rattle.sheet.specs.Contents.{Contents, contents};
ghost use Rattle.rule.specs.Placed.{accepts, stored};
ghost use Rattle.sheet.specs.Calls.{Added, grown, numbered};
ghost use Rattle.sheet.specs.Calls as calls;

use crate::sheet::Sheet;
use crate::sheet::lending::enough;
use fault::{Cause, Fault};
use kind::NumberKind;
use line::Line;
use rule::record_line;
use slope::Record;

impl Sheet {
    // Makes the record of one more line in the working line of its number. A refusal leaves all records.
    fn next<K: NumberKind>(&self, working: &mut [Record<K>], line: Line) -> Result<(), Fault>
        ensures answer { result ≡ accepts (calls.next K.NumberKind.model (contents self.now) (length working.old) (take (length (contents self.now).lines) working.old) line) }
        ensures records { working.new ≡ stored working.old (length (contents self.now).lines) (calls.next K.NumberKind.model (contents self.now) (length working.old) (take (length (contents self.now).lines) working.old) line) }
    {
        enough(working)?;
        if self.held == 64 {
            return Err(Cause::Full.at(64));
        }
        record_line(&self.over, working, self.held, line)
    }

    fn hold(&mut self, line: Line)
        requires { length (contents self.old).lines < 64 }
        ensures { contents self.new ≡ calls.with_line (contents self.old) line }
    {
        self.lines[self.held] = line;
        self.held += 1;
    }

    // Its number is answered. (Apart from `add`, which promises less on working lines that lack a record.)
    fn add_line<K: NumberKind>(
        &mut self,
        working: &mut [Record<K>],
        line: Line,
    ) -> Result<usize, Fault>
        ensures answer { result ≡ numbered (length (contents self.old).lines) (calls.next K.NumberKind.model (contents self.old) (length working.old) (take (length (contents self.old).lines) working.old) line) }
        ensures sheet { contents self.new ≡ grown (contents self.old) line (calls.next K.NumberKind.model (contents self.old) (length working.old) (take (length (contents self.old).lines) working.old) line) }
        ensures records { working.new ≡ stored working.old (length (contents self.old).lines) (calls.next K.NumberKind.model (contents self.old) (length working.old) (take (length (contents self.old).lines) working.old) line) }
    {
        let n = self.held;
        self.next(working, line)?;
        self.hold(line);
        Ok(n)
    }

    // Appends a line, with its record in the working line of its number, which it answers. A refusal leaves everything as it was.
    pub fn add<K: NumberKind>(
        &mut self,
        working: &mut [Record<K>],
        line: Line,
    ) -> Result<usize, Fault>
        ensures { Added K.NumberKind.model line (contents self.old) working.old result (contents self.new) working.new }
    {
        self.add_line(working, line)
    }
}
