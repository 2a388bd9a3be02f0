// Runs of calls on one sheet, and the law over them.
#![tactic(auto)]

mod call;
mod runs;

pub use call::{Answer, Call, Moving, Opening};
pub use runs::make;
