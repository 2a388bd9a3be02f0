// Room for the records of a call.
ghost use Rattle.std.specs.Prelude.{◌≡◌, length, replicate};
ghost use Rattle.crossing.specs.Memory.{blank_record};

use crate::marks::Crossing;
use slope::Record;
use span::Span;

// Where a call makes its records. What lies here between calls is of no use.
#[derive(Drop)]
pub struct Room<K: Crossing> {
    pub(crate) records: [Record<K>; 64],
    ghost whole: { length records ≡ 64 },
}

impl<K: Crossing> Room<K> {
    // Each record has U = U0 = [0] and no slopes. (A caller makes it, and not a call: whoever knows the kind knows the room's size.)
    pub fn blank() -> Room<K>
        ensures { result.records ≡ replicate 64 (blank_record K.NumberKind.model) }
    {
        let nought = Span::point(K::zero());
        Room {
            records: [Record::flat(nought, nought); 64],
        }
    }
}
