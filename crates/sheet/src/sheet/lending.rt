// The working lines that a call is lent.
ghost use Rattle.std.specs.Prelude.{◌≡◌, length};
ghost use Rattle.sheet.specs.Calls as calls;

use fault::{Cause, Fault};
use kind::NumberKind;
use slope::Record;

// Fewer than 64 are refused.
pub(crate) fn enough<K: NumberKind>(working: &[Record<K>]) -> Result<(), Fault>
    ensures { result ≡ calls.enough (length working.now) }
{
    if working.len() < 64 {
        return Err(Cause::Lines.at(0));
    }
    Ok(())
}
