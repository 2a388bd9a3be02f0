// Numbers in groups of seven bits (unsigned LEB128).
#![tactic(auto)]

mod numbers;
mod place;

pub use numbers::number;
pub use place::Place;
