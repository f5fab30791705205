ghost use Rattle.std.specs.Prelude.{◌≡◌};
ghost use Rattle.fmi_calls.specs.Next.{running_state};
ghost use Rattle.fmu_peer.specs.Running.{peer_of, running_mode};

use crate::{Eventing, Fmu, Peer, Stepping};
use std::marker::PhantomData;

/// An FMU after Initialization Mode: with event mode it is in Event Mode, without it in Step Mode.
pub enum Running<L: Peer> {
    Event(Fmu<L, Eventing>),
    Step(Fmu<L, Stepping>),
}

// An FMU that has left Initialization Mode.
pub(crate) fn into_running<L: Peer>(peer: L) -> Running<L>
    requires { (L.view peer).phase.state ≡ running_state (L.view peer).fixed.shape }
    ensures peer { peer_of result ≡ peer }
    ensures mode { running_mode result ≡ (L.view peer).phase.state }
{
    if peer.shape().has_event_mode {
        Running::Event(Fmu {
            peer,
            mode: PhantomData,
        })
    } else {
        Running::Step(Fmu {
            peer,
            mode: PhantomData,
        })
    }
}
