// The sheet and its calls.
#![tactic(auto)]

mod sheet;

pub use sheet::Sheet;
