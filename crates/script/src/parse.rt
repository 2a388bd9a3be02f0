// Lines of a script as calls.
ghost use Rattle.std.specs.Prelude.{◌≡◌, option_map};
ghost use Rattle.script.specs.Calls.{asked, asked_at, call_at, call_in, kind_at, room_at, within_at};
ghost use Rattle.script.specs.Lines.{line_at};
ghost use Rattle.script.specs.Openings as openings;
ghost use Rattle.script.specs.Openings.{moving_at, opened, opening_at};
ghost use Rattle.script.specs.Readings.{ReadsOrNoMemory, reading, reading_by};
ghost use Rattle.script.specs.Slips.{OrNoMemory, told_by};
ghost use Rattle.script.specs.Words.{place, words_of};

use crate::call::{Call, KindName, Moving, Opening};
use crate::counts::Counts;
use crate::hex::bytes_of;
use crate::slip::{Problem, Slip};
use crate::words::{Words, index_of, number_of};
use line::Line;
use std::alloc::Global;

// The numbers up to a word.
fn numbers_to<'a>(
    heap: Global,
    words: &mut Words<'a>,
    end: &'static str,
) -> Result<Vec<i64>, Slip<'a>>
    ensures { ReadsOrNoMemory (reading_by (λ numbers. numbers.items) result words.new) (openings.numbers_to end.now (place words.old)) }
{
    let mut numbers = Vec::new(heap);
    while let Some(word) = words.next() {
        if word == end {
            return Ok(numbers);
        }
        numbers.push(number_of(word)?)?;
    }
    Err(words.missing())
}

// The number behind a word.
fn number_behind<'a>(words: &mut Words<'a>, word: &'static str) -> Result<i64, Slip<'a>>
    ensures { reading result words.new ≡ openings.number_behind word.now (place words.old) }
{
    words.expect(word)?;
    words.number()
}

fn opening<'a>(heap: Global, words: &mut Words<'a>) -> Result<Opening, Slip<'a>>
    ensures { ReadsOrNoMemory (reading_by opened result words.new) (opening_at (place words.old)) }
{
    words.expect("lower")?;
    let lower = numbers_to(heap, words, "upper")?;
    let upper = numbers_to(heap, words, "swept")?;
    let swept = words.index()?;
    Ok(Opening {
        counts: Counts { lower, upper },
        swept,
        centre: number_behind(words, "centre")?,
    })
}

fn moving<'a>(words: &mut Words<'a>) -> Result<Moving, Slip<'a>>
    ensures { reading result words.new ≡ moving_at (place words.old) }
{
    Ok(Moving {
        channel: words.index()?,
        lower: number_behind(words, "lower")?,
        upper: number_behind(words, "upper")?,
        centre: number_behind(words, "centre")?,
    })
}

fn line_of<'a>(words: &mut Words<'a>) -> Result<Line, Slip<'a>>
    ensures { reading result words.new ≡ line_at (place words.old) }
{
    let operation = words.word()?;
    let line = match operation {
        "channel" => Line::Channel(words.index()?),
        "constant" => Line::Constant(words.number()?),
        "sum" => Line::Sum(words.index()?, words.index()?),
        "difference" => Line::Difference(words.index()?, words.index()?),
        "product" => Line::Product(words.index()?, words.index()?),
        "quotient" => Line::Quotient(words.index()?, words.index()?),
        "square" => Line::Square(words.index()?),
        "magnitude" => Line::Magnitude(words.index()?),
        "greater" => Line::Greater(words.index()?, words.index()?),
        "lesser" => Line::Lesser(words.index()?, words.index()?),
        "branch" => Line::Branch(words.index()?, words.index()?, words.index()?),
        _ => return Err(Problem::NoOperation.of(operation)),
    };
    Ok(line)
}

fn kind_of<'a>(words: &mut Words<'a>) -> Result<KindName, Slip<'a>>
    ensures { reading result words.new ≡ kind_at (place words.old) }
{
    let word = words.word()?;
    word.parse().ok().ok_or(Problem::NoKind.of(word))
}

// A number of lines of the memory, at most `limit`.
fn within<'a>(words: &mut Words<'a>, limit: usize) -> Result<usize, Slip<'a>>
    ensures { reading result words.new ≡ within_at limit (place words.old) }
{
    let word = words.word()?;
    match usize::try_from(number_of(word)?) {
        Ok(n) if n <= limit => Ok(n),
        _ => Err(Problem::Beyond.of(word)),
    }
}

fn room<'a>(words: &mut Words<'a>) -> Result<Option<usize>, Slip<'a>>
    ensures { reading result words.new ≡ room_at (place words.old) }
{
    match words.next() {
        Some(word) => Ok(Some(index_of(word)?)),
        None => Ok(None),
    }
}

// What is asked for behind the word of a call.
fn call_behind<'a>(heap: Global, word: &'a str, words: &mut Words<'a>) -> Result<Call, Slip<'a>>
    ensures { ReadsOrNoMemory (reading_by asked result words.new) (asked_at word.now (place words.old)) }
{
    let call = match word {
        "kind" => Call::Kind(kind_of(words)?),
        "lend" => Call::Lend(within(words, 128)?, within(words, 128)?),
        "open" => Call::Open(opening(heap, words)?),
        "add" => Call::Add(line_of(words)?),
        "strike" => Call::Strike,
        "move" => Call::Move(moving(words)?),
        "read" => Call::Read(bytes_of(heap, words)?),
        "write" => Call::Write(room(words)?),
        "report" => Call::Report(words.index()?),
        "record" => Call::Record(words.index()?),
        "working" => Call::Working(within(words, 127)?),
        "spare" => Call::Spare(within(words, 127)?),
        _ => return Err(Problem::NoCall.of(word)),
    };
    Ok(call)
}

fn call<'a>(heap: Global, word: &'a str, words: &mut Words<'a>) -> Result<Call, Slip<'a>>
    ensures { ReadsOrNoMemory (reading_by asked result words.new) (call_at word.now (place words.old)) }
{
    let call = call_behind(heap, word, words)?;
    words.end()?;
    Ok(call)
}

// The call of a line; empty lines and lines that begin with # have none.
pub fn call_of(heap: Global, text: &str) -> Result<Option<Call>, Slip<'_>>
    ensures { OrNoMemory (told_by (option_map asked) result) (call_in (words_of text.now)) }
{
    let mut words = Words::new(text);
    match words.next() {
        Some(word) if !word.starts_with('#') => Ok(Some(call(heap, word, &mut words)?)),
        _ => Ok(None),
    }
}
