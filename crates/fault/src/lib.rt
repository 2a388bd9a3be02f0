// Refusals: a cause and a place, made whole where they arise and passed on by `?`.
#![tactic(auto)]

mod fault;
mod methods;
mod texts;

pub use fault::{Cause, Fault};
