//! What a transformation of a mapping or of a connection does to values, and how its numbers are written.
#![tactic(auto)]

mod change;
mod elements;
mod factor;
mod law;
mod numbers;

pub use change::read_transformation;
pub use elements::{children_named, first_transformation, is_transformation};
pub use law::one_change;
pub use numbers::{boolean, whole_number};
