// Reading formula bytes, one line at a time.
#![tactic(auto)]

mod guard;
mod lines;

pub use lines::{count_at, end_at, line_at};
