// Writing the held lines.
ghost use Rattle.sheet.specs.Contents.{contents};
ghost use Rattle.sheet.specs.Calls.{Written};

use crate::sheet::Sheet;
use fault::Fault;

impl Sheet {
    // Writes the formula bytes of the held lines, and answers how many they are. Other bytes are untouched, all of them if it is refused.
    pub fn write(&self, out: &mut [u8]) -> Result<usize, Fault>
        ensures { Written (contents self.now) out.old result out.new }
    {
        writer::write(&self.lines[..self.held], out)
    }
}
