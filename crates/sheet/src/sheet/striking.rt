// Striking the last line.
ghost use Rattle.sheet.specs.Contents.{contents};
ghost use Rattle.sheet.specs.Calls.{Struck};

use crate::sheet::Sheet;
use fault::{Cause, Fault};

impl Sheet {
    // Removes the last line.
    pub fn strike(&mut self) -> Result<(), Fault>
        ensures { Struck (contents self.old) result (contents self.new) }
    {
        if self.held == 0 {
            return Err(Cause::NoLine.at(0));
        }
        self.held -= 1;
        Ok(())
    }
}
