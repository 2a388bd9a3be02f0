// Calls on the sheet of a desk.
ghost use Rattle.std.specs.Prelude.{◌++◌, codes, length};
ghost use Rattle.std.specs.Fmt.{decimal};
ghost use Rattle.runs.specs.Law.{GoesOn, RunsSound};
ghost use Rattle.runs.specs.Runs.{Made, event};
ghost use Rattle.runs.specs.declared.call.Call.TheVariants as calls;
ghost use Rattle.desk.specs.Answers.{Lends};
ghost use Rattle.desk.specs.Dealing.{Deals, MovesAs, OpensAs, SameBeyond, at_desk, written_room};

use crate::answers::told;
use crate::desk::{Desk, MEMORY};
use fault::Fault;
use kind::NumberKind;
use marks::Units;
use runs::Answer;
use script::{Moving, Opening};
use std::alloc::{AllocError, Global};

// How many bytes are enough to write any sheet into.
const ENOUGH: usize = 2048;

pub fn opening(opening: &Opening) -> runs::Call<'_>
    ensures { OpensAs opening.now result }
{
    runs::Call::Open(runs::Opening {
        lower: opening.counts.lower.as_slice(),
        upper: opening.counts.upper.as_slice(),
        swept: opening.swept,
        centre: opening.centre,
    })
}

pub fn moving(moving: Moving) -> runs::Call<'static>
    ensures { MovesAs moving result }
{
    runs::Call::Move(runs::Moving {
        channel: moving.channel,
        lower: moving.lower,
        upper: moving.upper,
        centre: moving.centre,
    })
}

impl<K: Units> Desk<K> {
    // From now on so many working and spare lines are lent.
    pub fn lend(&mut self, working: usize, spare: usize)
        ensures { Lends working spare self.old self.new }
    {
        self.lent = working.min(MEMORY);
        self.lent_spare = spare.min(MEMORY);
    }

    // Makes a call on the sheet with what is lent. Every call of a script is made here.
    fn make(&mut self, out: &mut [u8], call: runs::Call<'_>) -> Result<Answer, Fault>
        ensures made { Made K.NumberKind.model (at_desk self.old out.old) (at_desk self.new out.new) result call.entry }
        ensures run { GoesOn K.NumberKind.model (event call.entry (at_desk self.old out.old) result) (at_desk self.old out.old) (at_desk self.new out.new) }
        ensures law { RunsSound K.NumberKind.model }
        ensures beyond { SameBeyond self.old self.new }
    {
        runs::make(
            &mut self.sheet,
            &mut self.working[..self.lent],
            &mut self.spare[..self.lent_spare],
            out,
            call,
        )
    }

    // Makes a call with these bytes to write to, and answers in words.
    fn call_into(
        &mut self,
        heap: Global,
        name: &str,
        out: &mut [u8],
        call: runs::Call<'_>,
    ) -> Result<String, AllocError>
        ensures { Deals K.NumberKind.model call.entry (length out.old) name.now self.old self.new result }
    {
        let answer = self.make(out, call);
        told(heap, name, answer, out)
    }

    // Makes a call that writes no bytes.
    pub fn call(
        &mut self,
        heap: Global,
        name: &str,
        call: runs::Call<'_>,
    ) -> Result<String, AllocError>
        ensures { Deals K.NumberKind.model call.entry 0 name.now self.old self.new result }
    {
        self.call_into(heap, name, &mut [], call)
    }

    pub fn write(&mut self, heap: Global, room: Option<usize>) -> Result<String, AllocError>
        ensures { Deals K.NumberKind.model calls.Write (written_room room) (codes "write") self.old self.new result }
    {
        let mut bytes = [0u8; ENOUGH];
        let room = room.unwrap_or(ENOUGH).min(ENOUGH);
        self.call_into(heap, "write", &mut bytes[..room], runs::Call::Write)
    }

    pub fn report(&mut self, heap: Global, line: usize) -> Result<String, AllocError>
        ensures { Deals K.NumberKind.model (calls.Report line) 0 (codes "report " ++ decimal line) self.old self.new result }
    {
        let mut out: [u8; 0] = [];
        let answer = self.make(&mut out, runs::Call::Report(line));
        let name = format!(in heap; "report {line}")?;
        told(heap, name.as_str(), answer, &out)
    }
}
