//! The public calls of the crates about one FMU and of those at the edge under their own contracts, over which wrong bodies are tried.
#![tactic(auto)]

mod calls;
mod frames;
mod generated;
mod hosts;
mod laws;
mod links;
mod machines;
mod peers;

pub use calls::{go_on, is_permitted, worth_of};
pub use frames::{items_in, put_answer, put_frame, take_answer};
pub use generated::{counts_of, system_of_seed};
pub use hosts::{call_child, read_file, serve_calls, start_by_host, take_bytes};
pub use laws::machine_laws;
pub use links::{call_many_over_wire, call_over_wire};
pub use machines::{
    call_machine, call_script, deserialize_machine, retire_machine, serialize_machine,
    start_machine,
};
pub use peers::{close_each, read_output};
