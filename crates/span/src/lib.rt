// Spans of marks: each operation answers the narrowest span over all exact results, for every number kind.
#![tactic(auto)]

mod agreement;
mod curves;
mod ends;
mod hulls;
mod products;
mod quotients;
mod span;
mod sums;

pub use agreement::operations;
pub use span::Span;
