// Curves: the square and the magnitude under one lifting rule, for every number kind.
#![tactic(auto)]

mod lifting;
mod magnitudes;
mod squares;

pub use lifting::{Curve, lift};
pub use magnitudes::Magnitude;
pub use squares::Square;
