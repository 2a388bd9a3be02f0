// Lines, and the count of lines. (The place is a record of its own beside the bytes, since the guard is over it alone: so
// this project has it.)
ghost use Rattle.std.specs.Prelude.{◌≡◌};
ghost use Rattle.leb.specs.Places.{Stands};
ghost use Rattle.reader.specs.Reading as reading;

use crate::guard::Guard;
use fault::{Cause, Fault};
use leb::{Place, number};
use line::{Line, arity, line_of};

// An operand that the operation may not have: then 0, which `line_of` passes over. (One function, since an `if` at each call is longer.)
fn operand_if(wanted: bool, bytes: &[u8], place: &mut Place, line: usize) -> Result<u32, Fault>
    ensures { Stands (reading.operand_at wanted bytes.now place.old.at line) result place.old.at place.new.at }
{
    if wanted {
        number(bytes, place, line)
    } else {
        Ok(0)
    }
}

// The line at the place, which then stands behind it. Where it is not well formed the place goes back to its first byte.
pub fn line_at(bytes: &[u8], place: &mut Place) -> Result<Line, Fault>
    ensures { Stands (reading.line_at bytes.now place.old.at) result place.old.at place.new.at }
{
    let start = place.at;
    let guard = Guard { place, start };
    let operation = number(bytes, guard.place, start)?;
    if operation > 10 {
        return Err(Cause::Operation.at(start));
    }
    let a = number(bytes, guard.place, start)?;
    let operands = arity(operation);
    let b = operand_if(operands > 1, bytes, guard.place, start)?;
    let c = operand_if(operands > 2, bytes, guard.place, start)?;
    guard.commit();
    Ok(line_of(operation, a, b, c))
}

// The number of lines of a formula, and where its first line begins.
pub fn count_at(bytes: &[u8]) -> Result<(usize, Place), Fault>
    ensures { result ≡ reading.count_at bytes.now }
{
    let mut place = Place { at: 0 };
    let count = number(bytes, &mut place, 0)?;
    if !(1..=64).contains(&count) {
        return Err(Cause::Count.at(0));
    }
    Ok((count as usize, place))
}

// Refuses bytes left over behind the last line.
pub fn end_at(bytes: &[u8], place: Place) -> Result<(), Fault>
    ensures { result ≡ reading.end_at bytes.now place.at }
{
    if place.at < bytes.len() {
        return Err(Cause::Left.at(place.at));
    }
    Ok(())
}
