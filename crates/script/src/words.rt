// The words of a line, one after the other.
ghost use Rattle.std.specs.Prelude.{◌≡◌, codes, length};
ghost use Rattle.std.specs.Iterator.{at_most};
ghost use Rattle.script.specs.Numbers as numbers;
ghost use Rattle.script.specs.Readings.{end_at, index_at, number_at, reading, reading_by, wanted_at, word_at};
ghost use Rattle.script.specs.Slips.{told};
ghost use Rattle.script.specs.Words.{Takes, place, words_of};

use crate::slip::{Problem, Slip};
use std::str::SplitWhitespace;

#[derive(Drop)]
pub struct Words<'a> {
    rest: SplitWhitespace<'a>,
    // the word that was taken last
    last: &'a str,
}

impl<'a> Iterator for Words<'a> {
    type Item = &'a str;

    ghost next_gives = { Takes };

    ghost remaining = { λ line. at_most (length (place line).words) };

    fn next(&mut self) -> Option<&'a str> {
        let word = self.rest.next()?;
        self.last = word;
        Some(word)
    }
}

impl<'a> Words<'a> {
    pub fn new(text: &'a str) -> Words<'a>
        ensures words { (place result).words ≡ words_of text.now }
        ensures last { (place result).last ≡ codes "the line" }
    {
        Words {
            rest: text.split_whitespace(),
            last: "the line",
        }
    }

    pub fn word(&mut self) -> Result<&'a str, Slip<'a>>
        ensures { reading_by (λ w. w.now) result self.new ≡ word_at (place self.old) }
    {
        self.next().ok_or(self.missing())
    }

    // A word is wanted behind the last one.
    pub(crate) fn missing(&self) -> Slip<'a>
        ensures word { result.word.now ≡ self.now.last.now }
        ensures problem { result.problem ≡ Problem.Missing }
    {
        Problem::Missing.of(self.last)
    }

    pub fn expect(&mut self, wanted: &'static str) -> Result<(), Slip<'a>>
        ensures { reading result self.new ≡ wanted_at wanted.now (place self.old) }
    {
        let word = self.word()?;
        if word == wanted {
            Ok(())
        } else {
            Err(Problem::Expected(wanted).of(word))
        }
    }

    pub fn number(&mut self) -> Result<i64, Slip<'a>>
        ensures { reading result self.new ≡ number_at (place self.old) }
    {
        number_of(self.word()?)
    }

    pub fn index(&mut self) -> Result<usize, Slip<'a>>
        ensures { reading result self.new ≡ index_at (place self.old) }
    {
        index_of(self.word()?)
    }

    pub fn end(&mut self) -> Result<(), Slip<'a>>
        ensures { reading result self.new ≡ end_at (place self.old) }
    {
        match self.next() {
            Some(word) => Err(Problem::Surplus.of(word)),
            None => Ok(()),
        }
    }
}

pub fn number_of(word: &str) -> Result<i64, Slip<'_>>
    ensures { told result ≡ numbers.number_of word.now }
{
    word.parse().ok().ok_or(Problem::NoNumber.of(word))
}

// A number that is not below 0.
pub fn index_of(word: &str) -> Result<usize, Slip<'_>>
    ensures { told result ≡ numbers.index_of word.now }
{
    usize::try_from(number_of(word)?)
        .ok()
        .ok_or(Problem::NoIndex.of(word))
}
