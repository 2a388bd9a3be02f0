// Moving a channel in memory: the records of the held lines are made anew, each written where it belongs.
ghost use Rattle.std.specs.Prelude.{◌≡◌, ◌≤◌, ◌++◌, [], Ok, drop, is_ok, length, map, take, true};
ghost use Rattle.boxes.specs.Boxes.{Proper};
ghost use Rattle.boxes.specs.Stored.{box_of, boxed};
ghost use Rattle.crossing.specs.Lines.{line_of};
ghost use Rattle.crossing.specs.Memory.{Beyond, records_in};
ghost use Rattle.crossing.specs.Found.{Whole};
ghost use Rattle.crossing.specs.Sheets.{sheet_of};
ghost use Rattle.sheet.specs.Moving.{Moved, MovedTo, remade};
ghost use Rattle.sheet.specs.Moving as moves;
ghost use Rattle.sheet.specs.Reading.{overlaid};

use crate::boxed::stored;
use crate::making::record_in;
use crate::marks::Crossing;
use crate::means::Means;
use crate::memory::{CLine, CRecord, CSheet};
use boxes::ChannelBox;
use fault::{Cause, Fault};
use runs::Moving;
use slope::Record;

// Makes the records of lines over a box, and writes each.
fn remake<K: Crossing>(
    over: &ChannelBox,
    lines: &[CLine],
    records: &mut [Record<K>],
    memory: &mut [CRecord],
) -> Result<(), Fault>
    requires few { length lines.now ≤ 64 }
    requires room { length records.old ≡ 64 }
    requires lent { 64 ≤ length memory.old }
    ensures answer { result ≡ (remade K.NumberKind.model (box_of over.now) (map line_of lines.now) [] []).answer }
    ensures memory { records_in K.Crossing.mark_of memory.new ≡ overlaid (remade K.NumberKind.model (box_of over.now) (map line_of lines.now) [] []).records (records_in K.Crossing.mark_of memory.old) }
    ensures beyond { Beyond memory.old memory.new }
{
    for n in 0..lines.len() {
        memory[n] = CRecord::form(record_in(over, records, n, lines[n].meaning())?);
    }
    Ok(())
}

// The first so many records of a memory become those of another.
fn copy(to: &mut [CRecord], from: &[CRecord], count: usize)
    requires few { count ≤ 64 }
    requires to { 64 ≤ length to.old }
    requires from { 64 ≤ length from.now }
    ensures { to.new ≡ take count from.now ++ drop count to.old }
{
    to[..count].copy_from_slice(&from[..count]);
}

// Lays a box under the lines of a sheet, and makes all records anew.
fn move_to<K: Crossing>(
    sheet: &mut CSheet,
    working: &mut [CRecord],
    spare: &mut [CRecord],
    records: &mut [Record<K>],
    over: ChannelBox,
) -> Result<(), Fault>
    requires sheet { Whole sheet.old }
    requires over { Proper (box_of over) }
    requires working { 64 ≤ length working.old }
    requires spare { 64 ≤ length spare.old }
    requires room { length records.old ≡ 64 }
    ensures call { MovedTo K.NumberKind.model (Ok (box_of over)) (sheet_of sheet.old) (records_in K.Crossing.mark_of working.old) (records_in K.Crossing.mark_of spare.old) result (sheet_of sheet.new) (records_in K.Crossing.mark_of working.new) (records_in K.Crossing.mark_of spare.new) }
    ensures working { Beyond working.old working.new }
    ensures spare { Beyond spare.old spare.new }
{
    let held = sheet.held;
    remake(&over, &sheet.lines[..held], records, spare)?;
    copy(working, spare, held);
    sheet.over = stored(&over);
    Ok(())
}

// The box with another range for a channel, if enough working and spare lines are lent.
fn new_box(
    sheet: &mut CSheet,
    working: &[CRecord],
    spare: &[CRecord],
    moving: Moving,
) -> Result<ChannelBox, Fault>
    ensures answer { boxed result ≡ moves.new_box (sheet_of sheet.old) (length working.now) (length spare.now) moving.channel moving.lower moving.upper moving.centre }
    ensures means { sheet_of sheet.new ≡ sheet_of sheet.old }
    ensures whole { is_ok result ≡ true → Whole sheet.new }
    ensures lent { is_ok result ≡ true → (64 ≤ length working.now) × (64 ≤ length spare.now) }
{
    if working.len() < 64 || spare.len() < 64 {
        return Err(Cause::Lines.at(0));
    }
    let over = sheet.whole();
    over.moved(moving.channel, moving.lower, moving.upper, moving.centre)
}

pub(crate) fn moved<K: Crossing>(
    sheet: &mut CSheet,
    working: &mut [CRecord],
    spare: &mut [CRecord],
    records: &mut [Record<K>],
    moving: Moving,
) -> Result<(), Fault>
    requires { length records.old ≡ 64 }
    ensures call { Moved K.NumberKind.model moving.channel moving.lower moving.upper moving.centre (sheet_of sheet.old) (records_in K.Crossing.mark_of working.old) (records_in K.Crossing.mark_of spare.old) result (sheet_of sheet.new) (records_in K.Crossing.mark_of working.new) (records_in K.Crossing.mark_of spare.new) }
    ensures working { Beyond working.old working.new }
    ensures spare { Beyond spare.old spare.new }
{
    let over = new_box(sheet, working, spare, moving)?;
    move_to(sheet, working, spare, records, over)
}
