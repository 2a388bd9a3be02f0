// A guard over the reader's place.
ghost use Rattle.std.specs.Prelude.{◌≡◌};

use leb::Place;

// Puts the place back to the first byte of the line, on every way out but `commit`.
pub struct Guard<'a> {
    pub place: &'a mut Place,
    pub start: usize,
}

impl Drop for Guard<'_> {
    fn drop(self)
        ensures { self.exit.0.now.at ≡ self.entry.start }
    {
        self.place.at = self.start;
        let Guard { place: _, start: _ } = self;
    }
}

impl Guard<'_> {
    // The line is well formed: the place stays where it is.
    pub fn commit(self)
        ensures { self.exit.0.now ≡ self.entry.place.now }
    {
        let Guard { place: _, start: _ } = self;
    }
}
