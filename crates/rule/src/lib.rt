// The record of a line over a box, by the records of earlier lines.
#![tactic(auto)]

mod joints;
mod records;

pub use records::record_line;
