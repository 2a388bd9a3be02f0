// A desk: one sheet of a kind, the memory that is lent to its calls, and its answers in words.
#![tactic(auto)]

mod answers;
mod desk;
mod station;
mod texts;

pub use station::Station;
