// Marks as exact decimals, for the program's answers.
#![tactic(auto)]

mod decimal;
mod units;

pub use decimal::Decimal;
pub use units::Units;
