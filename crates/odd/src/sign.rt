// The marks of the odd kind.

#[derive(Clone, Copy, PartialEq, Eq, PartialOrd, Ord, Debug)]
pub enum Sign {
    Minus = -1,
    Nought = 0,
    Plus = 1,
}
