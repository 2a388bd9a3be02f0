// Writing formula bytes.
#![tactic(auto)]

mod lines;
mod numbers;
mod pen;

pub use lines::write;
