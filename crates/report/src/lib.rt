// Reports: the range of a line as a middle and a margin in whole 1/65,536.
#![tactic(auto)]

mod answer;
mod forms;
mod reports;

pub use answer::Report;
pub use reports::{range_of, report_of};
