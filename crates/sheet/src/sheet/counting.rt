// How many lines are held.
ghost use Rattle.std.specs.Prelude.{◌≡◌, length};
ghost use Rattle.sheet.specs.Contents.{contents};

use crate::sheet::Sheet;

impl Sheet {
    pub fn held(&self) -> usize
        ensures { result ≡ length (contents self.now).lines }
    {
        self.held
    }
}
