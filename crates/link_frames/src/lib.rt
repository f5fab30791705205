//! Calls and replies as the bytes of the link between the master and an FMU in a process of its own.
#![tactic(auto)]

mod batch;
mod call;
mod head;
mod laws;
mod layout;
mod numbers;
mod reply;
mod text;

pub use batch::{
    MOST_ITEMS, batch_count, batch_len, put_batch, put_batch_reply, take_batch, take_batch_reply,
};
pub use call::{CallFrame, can_be_sent, frame_len, put_call, take_call};
pub use laws::{batch_laws, frame_laws};
pub use reply::{put_reply, take_reply};
