//! The host's end of a link, with one FMU: the frames of calls come in, and those of its replies go out.
#![tactic(auto)]

mod reading;
mod serving;
mod state;

pub use serving::{ServeEnd, serve};
