// Second-order slope records and the rules of the simpler operations, for every number kind. A slope rule is a chain of
// `let .. else` over optional spans that leaves with a record without slopes: so this project has it, here and above.
#![tactic(auto)]

mod choices;
mod parts;
mod record;

pub use choices::{branch, greater, lesser};
pub use parts::{difference, still, sum, swept};
pub use record::{Base, Record, Shape, Slopes, present};
