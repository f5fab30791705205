//! FMUs as a master sees them: peers that answer calls, spawners that start them, and an FMU in typed states.
#![tactic(auto)]

mod closing;
mod ended;
mod fmu;
mod job;
mod mode;
mod peer;
mod running;
mod saved;
mod slot;
mod spawner;
mod talk_book;
mod talk_room;

pub use ended::{Ended, Why};
pub use fmu::Fmu;
pub use job::Job;
pub use mode::{Eventing, Fresh, Initializing, Instantiated, Mode, Stepping};
pub use peer::{Exchange, Peer, PeerFault};
pub use running::Running;
pub use saved::Saved;
pub use slot::{Held, Slot, close_all};
pub use spawner::{Spawner, StartFault};
pub use talk_book::TalkBook;
pub use talk_room::TalkRoom;
