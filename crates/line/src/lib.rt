// Lines of formulas, and their numbers in formula bytes.
#![tactic(auto)]

mod line;
mod numbers;

pub use line::Line;
pub use numbers::{arity, line_of};
