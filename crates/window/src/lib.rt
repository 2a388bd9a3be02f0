// A station's window: a box is opened, a formula is read onto it, and one of its lines is reported.
#![tactic(auto)]

mod calls;
mod refused;
mod windows;

pub use refused::{Refused, Step};
pub use windows::{last_over, line_over};
