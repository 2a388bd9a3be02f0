// The odd kind: only −1, 0 and 1 are marks. It keeps the rules of a kind and gives nothing more, so code that is run with it
// leans on nothing more.
#![tactic(auto)]

mod arithmetic;
mod sign;

pub use sign::Sign;
