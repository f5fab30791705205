//! The text of a trace, put into a buffer.
#![tactic(auto)]

mod append;
mod ending;
mod header;
mod holding;
mod instant;
mod room;

pub use ending::put_end;
pub use header::put_header;
pub use holding::passing_component;
pub use instant::put_instant;
pub use room::room_for;
