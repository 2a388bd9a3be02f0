// The numbers that a line is written as. An operation goes by its number in the bytes: an enum of the eleven beside `Line` would say
// their names again, and refuse numbers that these functions take.
ghost use Rattle.std.specs.Prelude.{◌≡◌, ◌<◌, ◌^◌, nat_lt, unwrap_or};
ghost use Rattle.line.specs.Operations.{folded, unfolded};
ghost use Rattle.line.specs.Operations as lines;

use crate::line::Line;

// How many operands an operation has; numbers above 10 are no operations, and get 3.
pub fn arity(operation: u32) -> u32
    ensures { result ≡ lines.arity operation }
{
    match operation {
        0 | 1 | 6 | 7 => 1,
        2 | 3 | 4 | 5 | 8 | 9 => 2,
        _ => 3,
    }
}

// 2 × n, or −2 × n − 1 for a negative n
fn fold(n: i64) -> u64
    ensures { result ≡ folded n }
{
    if n < 0 {
        (-1 - n) as u64 * 2 + 1
    } else {
        n as u64 * 2
    }
}

fn unfold(w: u32) -> i64
    ensures { result ≡ unfolded w }
{
    if w % 2 == 0 {
        i64::from(w / 2)
    } else {
        -1 - i64::from(w / 2)
    }
}

// The line with these numbers, for an operation of at most 10.
pub fn line_of(operation: u32, a: u32, b: u32, c: u32) -> Line
    ensures { result ≡ lines.line_of operation a b c }
{
    match operation {
        0 => Line::Channel(a as usize),
        1 => Line::Constant(unfold(a)),
        2 => Line::Sum(a as usize, b as usize),
        3 => Line::Difference(a as usize, b as usize),
        4 => Line::Product(a as usize, b as usize),
        5 => Line::Quotient(a as usize, b as usize),
        6 => Line::Square(a as usize),
        7 => Line::Magnitude(a as usize),
        8 => Line::Greater(a as usize, b as usize),
        9 => Line::Lesser(a as usize, b as usize),
        _ => Line::Branch(a as usize, b as usize, c as usize),
    }
}

impl Line {
    pub fn operation(self) -> u32
        ensures { result ≡ lines.operation self }
    {
        match self {
            Line::Channel(_) => 0,
            Line::Constant(_) => 1,
            Line::Sum(_, _) => 2,
            Line::Difference(_, _) => 3,
            Line::Product(_, _) => 4,
            Line::Quotient(_, _) => 5,
            Line::Square(_) => 6,
            Line::Magnitude(_) => 7,
            Line::Greater(_, _) => 8,
            Line::Lesser(_, _) => 9,
            Line::Branch(_, _, _) => 10,
        }
    }

    // The operands as they are written; some operations have no second, and most no third.
    pub fn first(self) -> u64
        ensures { result ≡ lines.first self }
    {
        match self {
            Line::Constant(n) => fold(n),
            Line::Channel(l)
            | Line::Sum(l, _)
            | Line::Difference(l, _)
            | Line::Product(l, _)
            | Line::Quotient(l, _)
            | Line::Square(l)
            | Line::Magnitude(l)
            | Line::Greater(l, _)
            | Line::Lesser(l, _)
            | Line::Branch(l, _, _) => l as u64,
        }
    }

    pub fn second(self) -> Option<u64>
        ensures value { unwrap_or result 0 ≡ lines.second self }
        ensures there { result ≡ lines.held (nat_lt 1 (lines.arity (lines.operation self))) (lines.second self) }
    {
        match self {
            Line::Channel(_) | Line::Constant(_) | Line::Square(_) | Line::Magnitude(_) => None,
            Line::Sum(_, r)
            | Line::Difference(_, r)
            | Line::Product(_, r)
            | Line::Quotient(_, r)
            | Line::Greater(_, r)
            | Line::Lesser(_, r)
            | Line::Branch(_, r, _) => Some(r as u64),
        }
    }

    pub fn third(self) -> Option<u64>
        ensures value { unwrap_or result 0 ≡ lines.third self }
        ensures there { result ≡ lines.held (nat_lt 2 (lines.arity (lines.operation self))) (lines.third self) }
    {
        match self {
            Line::Branch(_, _, r) => Some(r as u64),
            _ => None,
        }
    }
}
