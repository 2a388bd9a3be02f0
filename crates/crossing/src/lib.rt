// Sheets, records and lines as plain numbers in a caller's memory, as C has them, and the calls over that memory.
#![tactic(auto)]

mod adding;
mod answers;
mod boxed;
mod calls;
mod each;
mod formula;
mod lines;
mod making;
mod marks;
mod means;
mod memory;
mod moving;
mod plain;
mod reading;
mod records;
mod reporting;
mod room;
mod standing;
mod station;
mod whole;

pub use calls::call;
pub use each::{add, move_channel, read};
pub use marks::Crossing;
pub use means::Means;
pub use memory::{CAnswer, CBox, CLine, CMark, CRecord, CSheet, CSpan};
pub use plain::{open, strike, write};
pub use reporting::report;
pub use room::Room;
pub use station::windows;
