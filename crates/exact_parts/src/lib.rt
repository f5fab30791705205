//! Bytes read as parts, one after another: what stands there, what more bytes can make whole, and the first byte that
//! continues nothing.
#![tactic(auto)]

mod field;
mod taken;

pub use field::{Span, Spans, is_in, number_of, take_number};
pub use taken::{Taken, after};
