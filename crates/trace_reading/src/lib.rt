//! A trace read back from its text.
#![tactic(auto)]

mod cut;
mod fault;
mod item;
mod laws;
mod lines;
mod names;
mod numbers;
mod ports;
mod reading;
mod row_reader;
mod rows;
mod trace;

pub use fault::TraceFault;
pub use item::{Item, Place};
pub use laws::texts_of_traces;
pub use names::name as read_name;
pub use ports::read_port_line;
pub use reading::{read_header_line, read_trace};
pub use row_reader::RowReader;
pub use trace::{Header, Trace, TraceLine, TracePort};
