//! The master: it drives the FMUs of a system through the calling sequence, and puts the trace.
#![tactic(auto)]

mod laws;
mod master;
mod prepare_end;
mod slot_table;
mod taking;

pub use calling_sequence::RunEnd;
pub use laws::histories_of_peers;
pub use master::Master;
pub use prepare_end::{PrepareEnd, PrepareFault};
pub use slot_calls::BadAnswer;
