// Scripts: one call a line, in words.
#![tactic(auto)]

mod call;
mod counts;
mod hex;
mod parse;
mod slip;
mod words;

pub use call::{Call, KindName, Moving, Opening};
pub use counts::{Counts, counts_of};
pub use hex::append_bytes;
pub use parse::call_of;
pub use slip::{Problem, Slip};
pub use words::Words;
