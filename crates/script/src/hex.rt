// Bytes in hexadecimal.
ghost use Rattle.std.specs.Prelude.{◌≡◌, []};
ghost use Rattle.script.specs.Bytes.{AppendsOrNoMemory, bytes_at, pairs_into, words_into};
ghost use Rattle.script.specs.Bytes as meant;
ghost use Rattle.script.specs.Readings.{ReadsOrNoMemory, reading_by};
ghost use Rattle.script.specs.Words.{place, words_of};

use crate::slip::{Problem, Slip};
use crate::words::Words;
use std::alloc::Global;

// The byte of two digits.
fn byte_of(digits: &[u8]) -> Option<u8>
    ensures { result ≡ meant.byte_of digits.now }
{
    let [high, low] = *digits else {
        return None;
    };
    let high = char::from(high).to_digit(16)?;
    let low = char::from(low).to_digit(16)?;
    Some((high * 16 + low) as u8)
}

// The bytes of all words that are left, two digits each.
pub fn bytes_of<'a>(heap: Global, words: &mut Words<'a>) -> Result<Vec<u8>, Slip<'a>>
    ensures { ReadsOrNoMemory (reading_by (λ bytes. bytes.items) result words.new) (bytes_at [] (place words.old)) }
{
    let mut bytes = Vec::new(heap);
    while let Some(word) = words.next() {
        bytes.push(byte_of(word.as_bytes()).ok_or(Problem::NoByte.of(word))?)?;
    }
    Ok(bytes)
}

// Appends the bytes of a word, two digits each.
fn append_word<'a>(bytes: &mut Vec<u8>, word: &'a str) -> Result<(), Slip<'a>>
    ensures { AppendsOrNoMemory result bytes.new (pairs_into word.now bytes.old.items word.now) }
{
    for digits in word.as_bytes().chunks(2) {
        bytes.push(byte_of(digits).ok_or(Problem::NoByte.of(word))?)?;
    }
    Ok(())
}

// Appends the bytes of a line; a word may have the digits of several.
pub fn append_bytes<'a>(bytes: &mut Vec<u8>, text: &'a str) -> Result<(), Slip<'a>>
    ensures { AppendsOrNoMemory result bytes.new (words_into (words_of text.now) bytes.old.items) }
{
    for word in Words::new(text) {
        append_word(bytes, word)?;
    }
    Ok(())
}
