//! Documents of systems that stand in one another, put together into one: which is read next, the parts of the whole, and where each of its elements stands.
#![tactic(auto)]

mod components;
mod folders;
mod held;
mod inlining;
mod inner;
mod moves;
mod nest;
mod numbers;
mod run;
mod seam;

pub use components::Waiting;
pub use held::Nest;
pub use inlining::inlined;
pub use nest::{DEEPEST_LEVEL, MOST_DOCUMENTS, Next, OUTERMOST, Whole};
pub use numbers::{Numbers, Place};
pub use seam::{Frame, Seam, Side};
