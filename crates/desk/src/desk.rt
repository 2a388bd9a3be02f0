// The desk of one kind.
ghost use Rattle.std.specs.Prelude.{◌≡◌, ◌≤◌};
ghost use Rattle.window.specs.Windows.{last_over};

use kind::NumberKind;
use marks::Units;
use report::Report;
use sheet::Sheet;
use slope::Record;
use window::Refused;

mod answering;
mod beginning;
mod dealing;
mod looking;

// How many working and spare lines there are to lend.
pub const MEMORY: usize = 128;

// A sheet, the memory, and how much of it is lent to the calls. (What is lent is no length of the arrays: every line of them can be
// read.)
#[derive(Drop)]
pub struct Desk<K: Units> {
    sheet: Sheet,
    working: [Record<K>; 128],
    spare: [Record<K>; 128],
    lent: usize,
    lent_spare: usize,
    ghost few: { lent ≤ 128 },
    ghost few_spare: { lent_spare ≤ 128 },
}

impl<K: Units> Desk<K> {
    // Opens a box with channel 0 swept about the midpoint of its range, reads a formula and reports its last line. What the sheet and the
    // memory held before has no part in the answer.
    pub fn window(
        &mut self,
        formula: &[u8],
        lower: &[i64],
        upper: &[i64],
    ) -> Result<Report, Refused>
        ensures answer { result ≡ last_over K.NumberKind.model lower.now upper.now self.old.lent formula.now }
        ensures lent { self.new.lent ≡ self.old.lent }
    {
        let working = &mut self.working[..self.lent];
        window::last_over(&mut self.sheet, working, lower, upper, formula)
    }
}
