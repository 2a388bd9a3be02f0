// The counts of channels.
ghost use Rattle.std.specs.Prelude.{[]};
ghost use Rattle.script.specs.Counts.{ends_of, pairs_of};
ghost use Rattle.script.specs.Slips.{OrNoMemory, told_by};
ghost use Rattle.script.specs.Words.{words_of};

use crate::slip::Slip;
use crate::words::{Words, number_of};
use std::alloc::Global;

// The lower and the upper ends of the channels: two lists, since they may be of unequal length, which an open refuses.
#[derive(Drop)]
pub struct Counts {
    pub lower: Vec<i64>,
    pub upper: Vec<i64>,
}

// Lower and upper end of each channel in turn, taken in pairs. A last lower end may have no upper end.
pub fn counts_of(heap: Global, text: &str) -> Result<Counts, Slip<'_>>
    ensures { OrNoMemory (told_by ends_of result) (pairs_of (words_of text.now) [] []) }
{
    let mut counts = Counts {
        lower: Vec::new(heap),
        upper: Vec::new(heap),
    };
    let mut words = Words::new(text);
    while let Some(lower) = words.next() {
        counts.lower.push(number_of(lower)?)?;
        if let Some(upper) = words.next() {
            counts.upper.push(number_of(upper)?)?;
        }
    }
    Ok(counts)
}
