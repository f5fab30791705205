//! An order in which each node comes after all that it needs, or a loop where there is none; and what is reached along links.
#![tactic(auto)]

mod grouped;
mod lists;
mod loops;
mod paths;
mod sorting;

pub use grouped::{GroupedNeeds, order_grouped};
pub use lists::Lists;
pub use paths::{one_source, reached_from};
pub use sorting::{Found, find_order};
