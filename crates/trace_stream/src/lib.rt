//! A trace read from a stream, instant by instant, in memory that doesn't grow with it.
#![tactic(auto)]

mod fault;
mod lines;
mod moment;
mod steps;
mod stream;

pub use fault::StreamFault;
pub use moment::Moment;
pub use stream::TraceStream;
