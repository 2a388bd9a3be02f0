// The calls that make or read records.
ghost use Rattle.crossing.specs.Calls.{Adds, Moves, Reads};

use crate::answers::answer;
use crate::calls::call;
use crate::marks::Crossing;
use crate::means::Means;
use crate::memory::{CAnswer, CLine, CRecord, CSheet};
use crate::room::Room;
use fault::Cause;
use runs::{Call, Moving};

pub fn add<K: Crossing>(
    sheet: &mut CSheet,
    working: &mut [CRecord],
    room: &mut Room<K>,
    line: CLine,
) -> CAnswer
    ensures { Adds K.NumberKind.model K.Crossing.mark_of line sheet.old working.old result sheet.new working.new }
{
    if line.operation > 10 {
        return answer(Err(Cause::Operation.at(0)));
    }
    answer(call(
        sheet,
        working,
        &mut [],
        &mut [],
        room,
        Call::Add(line.meaning()),
    ))
}

pub fn move_channel<K: Crossing>(
    sheet: &mut CSheet,
    working: &mut [CRecord],
    spare: &mut [CRecord],
    room: &mut Room<K>,
    moving: Moving,
) -> CAnswer
    ensures { Moves K.NumberKind.model K.Crossing.mark_of moving.channel moving.lower moving.upper moving.centre sheet.old working.old spare.old result sheet.new working.new spare.new }
{
    answer(call(sheet, working, spare, &mut [], room, Call::Move(moving)))
}

pub fn read<K: Crossing>(
    sheet: &mut CSheet,
    working: &mut [CRecord],
    room: &mut Room<K>,
    bytes: &[u8],
) -> CAnswer
    ensures { Reads K.NumberKind.model K.Crossing.mark_of bytes.now sheet.old working.old result sheet.new working.new }
{
    answer(call(sheet, working, &mut [], &mut [], room, Call::Read(bytes)))
}
