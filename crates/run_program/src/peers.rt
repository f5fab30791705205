ghost use Rattle.std.specs.Prelude.{◌≡◌, ◌+◌, ◌≤◌, [], All, IfErr, IfOk, length, map, vec_capacity};
ghost use Rattle.fmu_peer.specs.Start.{AnswersUnknown, IsMade, IsStarted, NotesStart};
ghost use Rattle.system_files.specs.Loads.{IsNamed};
ghost use Rattle.run_program.specs.Peers.{StartsEach, StartsUpTo, with_all_retired};

use fmu_peer::{Spawner, StartFault};
use sim_base::{CompId, Text};
use std::alloc::Global;
use system_model::Component;

/// The peers that were started before one that wasn't, of which component that is, and why.
pub(crate) struct Unstarted<L> {
    pub peers: Vec<L>,
    pub component: CompId,
    pub fault: StartFault,
}

/// Starts a peer for each of the components by the host, in their order and in the folder of its FMU, and puts them into an
/// empty list that has room for them.
pub(crate) fn start_each<S: Spawner>(
    alloc: Global,
    host: &str,
    folders: &[Text],
    components: &[Component],
    room: Vec<S::Link>,
    spawner: &mut S,
) -> Result<Vec<S::Link>, Unstarted<S::Link>>
    requires empty { room.items ≡ [] }
    requires room { length components.now ≤ vec_capacity room }
    requires few { length components.now ≤ 256 }
    requires folders { length folders.now ≡ length components.now }
    requires each { All IsNamed components.now }
    ensures ok { IfOk result (λ peers. StartsEach host.now folders.now components.now
        (map S.Link.view peers.items) (S.view spawner.old) (S.view spawner.new)) }
    ensures err { IfErr result (λ e. StartsUpTo host.now folders.now components.now e.component.0
        e.fault (map S.Link.view e.peers.items) (S.view spawner.old) (S.view spawner.new)) }
{
    let mut peers = room;
    for place in 0..components.len() {
        let component = &components[place];
        match start_one(alloc, host, folders[place].as_str(), component, spawner) {
            Ok(peer) => peers.push_reserved(peer),
            Err(fault) => {
                return Err(Unstarted {
                    peers,
                    component: CompId(place as u32),
                    fault,
                });
            }
        }
    }
    Ok(peers)
}

// Starts a peer for a component, whose FMU lies in a folder.
fn start_one<S: Spawner>(
    alloc: Global,
    host: &str,
    folder: &str,
    component: &Component,
    spawner: &mut S,
) -> Result<S::Link, StartFault>
    requires { IsNamed component.now }
    ensures fresh { IfOk result (λ link. IsStarted host.now component.now.name folder.now
        component.now.shape (S.Link.view link)) }
    ensures made { IfOk result (λ link. IsMade (S.view spawner.old) host.now component.now.shape
        (S.Link.view link)) }
    ensures unknown { AnswersUnknown ((S.view spawner.old).knows host.now
        component.now.shape.identifier) result }
    ensures noted { NotesStart (S.view spawner.old) (S.view spawner.new) result }
{
    let Ok(name) = component.name.text(alloc) else {
        return Err(StartFault::Memory);
    };
    spawner.start(alloc, host, name.as_str(), folder, &component.shape)
}

/// Takes the peers back, in their order.
pub(crate) fn retire_each<S: Spawner>(peers: Vec<S::Link>, spawner: &mut S)
    requires { length (S.view spawner.old).retired + length peers.items ≤
        (S.view spawner.old).started }
    ensures { S.view spawner.new ≡ with_all_retired (S.view spawner.old)
        (map S.Link.view peers.items) }
{
    let mut left = peers.into_iter();
    while let Some(peer) = left.next() {
        spawner.retire(peer);
    }
    left.destroy_empty();
}
