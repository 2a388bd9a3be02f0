// The sliding kind: marks with a mantissa of 24 bits and a scale.
#![tactic(auto)]

mod arithmetic;
mod mark;
mod product;
mod ratio;
mod rounding;

pub use mark::Sliding;
