// How a desk begins.
ghost use Rattle.std.specs.Prelude.{◌≡◌};
ghost use Rattle.desk.specs.Begun.{Begins, blank_memory};

use crate::desk::Desk;
use kind::NumberKind;
use marks::Units;
use sheet::Sheet;
use slope::Record;
use span::Span;

// A memory: every line has U = U0 = [0] and no slopes.
fn memory<K: Units>() -> [Record<K>; 128]
    ensures { result ≡ blank_memory K.NumberKind.model }
{
    let nought = Span::point(K::zero());
    [Record::flat(nought, nought); 128]
}

impl<K: Units> Desk<K> {
    // A blank sheet and blank memories.
    pub fn blank() -> Desk<K>
        ensures begins { Begins result.sheet result.lent result.lent_spare }
        ensures working { result.working ≡ blank_memory K.NumberKind.model }
        ensures spare { result.spare ≡ blank_memory K.NumberKind.model }
    {
        Desk {
            sheet: Sheet::blank(),
            working: memory(),
            spare: memory(),
            lent: 64,
            lent_spare: 64,
        }
    }

    // The same where the desk stands: nothing of its size is moved.
    pub fn begin(&mut self)
        ensures begins { Begins self.new.sheet self.new.lent self.new.lent_spare }
        ensures working { self.new.working ≡ blank_memory K.NumberKind.model }
        ensures spare { self.new.spare ≡ blank_memory K.NumberKind.model }
    {
        self.sheet = Sheet::blank();
        self.working = memory();
        self.spare = memory();
        self.lent = 64;
        self.lent_spare = 64;
    }
}
