// Reading a number.
ghost use Rattle.std.specs.Prelude.{◌≡◌, ◌+◌, ◌≤◌, length, drop, nat_lt, position, IfOk, MatchResult};
ghost use Rattle.leb.specs.Groups.{joined, Judged};
ghost use Rattle.leb.specs.Numbers.{decode, size};
ghost use Rattle.leb.specs.Places.{Stands, number_at};
ghost use Rattle.leb.specs.Trips.{RoundTrips};

use crate::place::Place;
use fault::{Cause, Fault};

const LARGEST: u64 = 2_147_483_647;

// Where the last group of a number stands, if it is there.
fn last_at(bytes: &[u8]) -> Option<usize>
    ensures { result ≡ position (λ b. nat_lt b 128) bytes.now }
{
    bytes.iter().position(|byte| *byte < 128)
}

// What groups join to, low group first.
fn joined(groups: &[u8]) -> u64
    ensures { length groups.now ≤ 5 → result ≡ joined groups.now }
{
    groups
        .iter()
        .rev()
        .fold(0, |value, byte| value << 7 | u64::from(byte & 0x7f))
}

// The number of these groups, unless they are too many, it is too large or its last group is a 0 that is not its only one.
fn judged(groups: &[u8]) -> Option<u32>
    ensures { Judged groups.now result }
{
    if groups.len() > 5 {
        return None;
    }
    let value = joined(groups);
    if value > LARGEST {
        return None;
    }
    if let [_, .., 0] = groups {
        return None;
    }
    Some(value as u32)
}

// The number that bytes begin with, and how many they are; refused at the first byte of its line.
#[tactic(auto, using(crate::proofs::Reading::early, crate::proofs::Reading::refused, crate::proofs::Reading::size_is))]
fn first_number(bytes: &[u8], line: usize) -> Result<(u32, usize), Fault>
    ensures value { MatchResult result (λ p. decode bytes.now ≡ Ok p.0) (λ e. (decode bytes.now ≡ Err e.cause) × (e.place ≡ line)) }
    ensures size { IfOk result (λ p. p.1 ≡ size bytes.now) }
    ensures fits { IfOk result (λ p. p.1 ≤ length bytes.now) }
{
    let last = last_at(bytes).ok_or(Cause::Early.at(line))?;
    let groups = &bytes[..=last];
    let n = judged(groups).ok_or(Cause::Form.at(line))?;
    Ok((n, groups.len()))
}

// The bytes from a place on; none where it lies beyond the end.
fn bytes_from(bytes: &[u8], place: Place) -> &[u8]
    ensures { result.now ≡ drop place.at bytes.now }
{
    bytes.get(place.at..).unwrap_or_default()
}

// The number at a place, which then stands behind it. A refusal leaves the place, and names the first byte of the number's line. What
// is written as a number is read back, and what was read has no other form. (The place is a record of its own beside the bytes, for
// the guard of a reader.)
#[tactic(auto, using(crate::proofs::Trip::round_trips))]
pub fn number(bytes: &[u8], place: &mut Place, line: usize) -> Result<u32, Fault>
    ensures stands { Stands (number_at bytes.now place.old.at line) result place.old.at place.new.at }
    ensures trips { RoundTrips }
{
    let (n, size) = first_number(bytes_from(bytes, *place), line)?;
    place.at += size;
    Ok(n)
}
