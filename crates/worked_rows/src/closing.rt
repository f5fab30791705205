//! The closing of an FMU, wherever its run has led it.
ghost use Rattle.std.specs.Prelude.{◌≡◌, IsTrue};
ghost use Rattle.fmu_peer.specs.Mode.{is_over};
ghost use Rattle.fmu_peer.specs.Close.{can_be_closed};

use crate::driver::Reached;
use fmi_calls::{InstanceState, Phase};
use fmu_peer::{Ended, Exchange, Fmu, Held, Mode, Peer, Saved, Stepping, Why};
use std::process::Abort;

/// How a run is to end: where the instance stands, why, and whether its closing is silent.
#[derive(Clone, Copy)]
pub(crate) struct Ending {
    pub(crate) state: InstanceState,
    pub(crate) why: Option<Why>,
    pub(crate) silent: bool,
}

fn is_over(state: InstanceState) -> bool
    ensures { result ≡ is_over state }
{
    matches!(state, InstanceState::Dead | InstanceState::Lost)
}

fn can_be_closed(phase: &Phase, silent: bool) -> bool
    ensures { result ≡ can_be_closed phase.now silent }
{
    silent || (!phase.slot.is_full || is_over(phase.state))
}

// The instance stands as it is to, and can be closed.
fn assert_stands<L: Peer>(rt: &impl Abort, peer: &L, ending: &Ending)
    ensures { IsTrue (can_be_closed (L.view peer.now).phase ending.now.silent) }
{
    assert_eq!(rt; peer.phase().state, ending.state);
    assert!(rt; can_be_closed(peer.phase(), ending.silent));
}

fn close_stepping<L: Peer>(
    rt: &impl Abort,
    mut fmu: Fmu<L, Stepping>,
    saved: Option<Saved>,
    ending: &Ending,
) -> L {
    if let Some(saved) = saved {
        fmu.abandon(saved);
    }
    close_fmu(rt, fmu, ending)
}

fn close_fmu<L: Peer, M: Mode>(rt: &impl Abort, fmu: Fmu<L, M>, ending: &Ending) -> L {
    assert_stands(rt, &fmu.peer, ending);
    fmu.close(ending.silent)
}

fn close_ended<L: Peer>(rt: &impl Abort, ended: Ended<L>, ending: &Ending) -> L {
    assert_eq!(rt; ended.phase().state, ending.state);
    assert_stands(rt, &ended.peer, ending);
    ended.close(ending.silent)
}

/// Closes an FMU, and gives its peer back.
pub(crate) fn close<L: Peer>(rt: &impl Abort, reached: Reached<L>, ending: &Ending) -> L {
    let Reached { held, saved, why } = reached;
    assert_eq!(rt; why, ending.why);
    match held {
        Held::Stepping(fmu) => close_stepping(rt, fmu, saved, ending),
        held => close_unsaved(rt, held, saved, ending),
    }
}

fn close_unsaved<L: Peer>(
    rt: &impl Abort,
    held: Held<L>,
    saved: Option<Saved>,
    ending: &Ending,
) -> L {
    assert_unsaved(rt, saved);
    match held {
        Held::Fresh(fmu) => close_fmu(rt, fmu, ending),
        Held::Instantiated(fmu) => close_fmu(rt, fmu, ending),
        Held::Initializing(fmu) => close_fmu(rt, fmu, ending),
        Held::Eventing(fmu) => close_fmu(rt, fmu, ending),
        Held::Stepping(fmu) => close_fmu(rt, fmu, ending),
        Held::Ended(ended) => close_ended(rt, ended, ending),
        Held::Closed(peer) => peer,
    }
}

/// Nothing is kept saved.
pub(crate) fn assert_unsaved(rt: &impl Abort, saved: Option<Saved>) {
    match saved {
        Some(_saved) => panic!(rt; "a state is kept saved"),
        None => {}
    }
}

/// These exchanges were kept.
pub(crate) fn assert_talk(rt: &impl Abort, kept: Option<&[Exchange]>, talk: &[Exchange]) {
    match kept {
        Some(kept) => assert_eq!(rt; kept, talk),
        None => panic!(rt; "no talk is kept"),
    }
}
