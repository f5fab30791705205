ghost use Rattle.std.specs.Prelude.{◌≡◌, ◌+◌, ◌<◌, ◌≤◌, ◌++◌, [], ◌∷◌, length, vec_len, vec_capacity, IfOk};

use crate::{Exchange, PeerFault};
use fmi_calls::{Call, Reply};
use std::alloc::{AllocError, Global};

/// The exchanges with an instance, in room for a number of them that is fixed when it is made.
#[derive(Debug, Drop)]
pub struct TalkRoom {
    pub exchanges: Vec<Exchange>,
    pub room: usize,
    ghost reserved: { room ≤ vec_capacity exchanges },
}

impl TalkRoom {
    /// Room for this many exchanges.
    pub fn with_room(alloc: Global, room: usize) -> Result<TalkRoom, AllocError>
        ensures empty { IfOk result (λ t. t.exchanges.items ≡ []) }
        ensures room { IfOk result (λ t. t.room ≡ room) }
    {
        let exchanges = Vec::with_capacity(alloc, room)?;
        Ok(TalkRoom { exchanges, room })
    }

    /// Adds an exchange, for which there is room.
    #[inline(never)]
    pub(crate) fn push(&mut self, call: &Call, answer: &Result<Reply, PeerFault>)
        requires { vec_len self.old.exchanges < self.old.room }
        ensures exchanges { self.new.exchanges.items ≡ self.old.exchanges.items ++
            record { call = call.now; result = answer.now } ∷ [] }
        ensures room { self.new.room ≡ self.old.room }
    {
        let exchange = Exchange {
            call: *call,
            result: *answer,
        };
        self.exchanges.push(exchange).unwrap();
    }
}
