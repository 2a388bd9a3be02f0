// Making records in a room.
ghost use Rattle.std.specs.Prelude.{◌≡◌, ◌<◌, length, take};
ghost use Rattle.boxes.specs.Stored.{box_of};
ghost use Rattle.rule.specs.Placed.{stored};
ghost use Rattle.rule.specs.Rule.{rule};

use crate::marks::Crossing;
use boxes::ChannelBox;
use fault::Fault;
use line::Line;
use rule::record_line;
use slope::Record;

// The record of a line by those before it, which is put into its place too.
#[inline(always)]
pub(crate) fn record_in<K: Crossing>(
    over: &ChannelBox,
    records: &mut [Record<K>],
    n: usize,
    line: Line,
) -> Result<Record<K>, Fault>
    requires { n < length records.old }
    ensures answer { result ≡ rule K.NumberKind.model (box_of over.now) (take n records.old) line }
    ensures records { records.new ≡ stored records.old n (rule K.NumberKind.model (box_of over.now) (take n records.old) line) }
{
    record_line(over, records, n, line)?;
    Ok(records[n])
}
