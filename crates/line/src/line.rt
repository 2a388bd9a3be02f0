// Lines of formulas.

// One operation with its operands: a channel's number, a constant in counts, or numbers of earlier lines. A line may hold any
// numbers, sound or spoiled.
#[derive(Clone, Copy, PartialEq, Eq, Debug)]
pub enum Line {
    Channel(usize),
    Constant(i64),
    Sum(usize, usize),
    Difference(usize, usize),
    Product(usize, usize),
    Quotient(usize, usize),
    Square(usize),
    Magnitude(usize),
    Greater(usize, usize),
    Lesser(usize, usize),
    // q's value if s is below 0, otherwise r's, of Branch(s, q, r)
    Branch(usize, usize, usize),
}
