// Number kinds: what a mark is worth, and how sums, products and quotients of marks are rounded below and above.
#![tactic(auto)]

mod kind;
mod laws;

pub use kind::NumberKind;
pub use laws::directions;
