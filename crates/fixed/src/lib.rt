// The fixed kind: marks on a grid of 1/65,536.
#![tactic(auto)]

mod arithmetic;
mod mark;
mod ratio;

pub use mark::Fixed;
