ghost use Rattle.std.specs.Prelude.{◌≡◌, ◌≤◌, ◌^◌, [], IfErr, IfOk, None, length};
ghost use Rattle.bench_fmus.specs.BuiltInView.{built_in_view};
ghost use Rattle.bench_fmus.specs.Models.{is_model};
ghost use Rattle.bench_fmus.specs.Spawners.{StartsBuiltIns};
ghost use Rattle.child_hosts.specs.Links.{IsOfHost, host_link_view, hosts_view, is_known};
ghost use Rattle.command_line.specs.Line.{built_in_host};
ghost use Rattle.fmu_peer.specs.Start.{AnswersUnknown, IsMade, IsStarted};

use crate::{ChildFmu, HostLink, Pipes};
use bench_fmus::{BuiltIn, Model, Origin, Retired};
use command_line::BUILT_IN_HOST;
use fmu_peer::{Spawner, StartFault};
use std::alloc::{AllocError, AllocFailed, Global};
use std::process::{Processes, SystemProcess};
use std::snapshot::Snapshot;
use value_types::Shape;

/// The spawner of the program. By the host `builtin` it gives the built-in machines, which are known by their names; by
/// another it starts the program of this name for each FMU, and knows all identifiers.
#[derive(Drop)]
pub struct Hosts<'a, R> {
    pub processes: &'a R,
    /// what those told that were taken back
    pub retired: Retired<Snapshot<HostLink<Pipes>>>,
    pub faults: u64,
}

impl<'a, R: Processes<Started = SystemProcess>> Hosts<'a, R> {
    /// A spawner before its first start.
    pub fn new(alloc: Global, processes: &'a R) -> Hosts<'a, R>
        ensures none { (result.retired.started ≡ 0) × (result.retired.peers.items ≡ []) }
        ensures quiet { result.faults ≡ 0 }
        ensures built_ins { StartsBuiltIns built_in_host (hosts_view result) }
    {
        Hosts {
            processes,
            retired: Retired::new(alloc),
            faults: 0,
        }
    }
}

impl<'a, R: Processes<Started = SystemProcess>> Spawner for Hosts<'a, R> {
    type Link = HostLink<Pipes>;

    ghost use Rattle.fmu_peer.specs.Start.{NotesStart};
    ghost use Rattle.child_hosts.specs.LinkLaws.{fewer_views};

    ghost view = { hosts_view };

    ghost fewer = { λ h. fewer_views h.retired.peers.items h.retired.started h.retired.fewer };

    fn start(
        &mut self,
        alloc: Global,
        host: &str,
        name: &str,
        directory: &str,
        shape: &Shape,
    ) -> Result<HostLink<Pipes>, StartFault>
        requires name { (1 ≤ length name.now) × (length name.now ≤ 2 ^ 24) }
        requires token { length shape.now.token ≤ 2 ^ 24 }
        ensures fresh { IfOk result (λ link. IsStarted host.now name.now directory.now shape.now
            (host_link_view link)) }
        ensures made { IfOk result (λ link. IsMade (hosts_view self.old) host.now shape.now
            (host_link_view link)) }
        ensures unknown { AnswersUnknown (is_known host.now shape.now.identifier) result }
        ensures noted { NotesStart (hosts_view self.old) (hosts_view self.new) result }
        ensures host { IfOk result (λ link. IsOfHost host.now shape.now link) }
    {
        match start_link(self.processes, alloc, host, name, directory, shape) {
            Ok(link) => self.count(link),
            Err(fault) => {
                self.note(fault);
                Err(fault)
            }
        }
    }

    fn retire(&mut self, link: HostLink<Pipes>) {
        self.retired.push(Snapshot::of(&link));
        link.end();
    }
}

impl<'a, R> Hosts<'a, R> {
    ghost use Rattle.fmu_peer.specs.Start.{NotesStart, with_failure};
    ghost use Rattle.fmu_peer.specs.declared.spawner.StartFault.TheVariants.{Failed, Memory};

    // Counts a peer that was started, and makes the room to take it back.
    fn count(&mut self, link: HostLink<Pipes>) -> Result<HostLink<Pipes>, StartFault>
        ensures link { IfOk result (λ same. same ≡ link) }
        ensures memory { IfErr result (λ e. e ≡ Memory) }
        ensures noted { NotesStart (hosts_view self.old) (hosts_view self.new) result }
    {
        match self.retired.count(Snapshot::of(&link)) {
            Ok(_) => Ok(link),
            Err(_) => {
                link.end();
                Err(StartFault::Memory)
            }
        }
    }

    // Counts a start that failed.
    fn note(&mut self, fault: StartFault)
        ensures failed { fault ≡ Failed → hosts_view self.new ≡ with_failure (hosts_view self.old) }
        ensures other { (fault ≡ Failed → ⊥) → self.new ≡ self.old }
    {
        if fault == StartFault::Failed {
            self.faults = self.faults.saturating_add(1);
        }
    }
}

// A peer by its host.
fn start_link<R: Processes<Started = SystemProcess>>(
    rt: &R,
    alloc: Global,
    host: &str,
    name: &str,
    directory: &str,
    shape: &Shape,
) -> Result<HostLink<Pipes>, StartFault>
    requires name { (1 ≤ length name.now) × (length name.now ≤ 2 ^ 24) }
    requires token { length shape.now.token ≤ 2 ^ 24 }
    ensures fresh { IfOk result (λ l. IsStarted host.now name.now directory.now shape.now
        (host_link_view l)) }
    ensures unknown { AnswersUnknown (is_known host.now shape.now.identifier) result }
    ensures host { IfOk result (λ l. IsOfHost host.now shape.now l) }
{
    if host == BUILT_IN_HOST {
        return start_built_in(alloc, host, name, directory, shape);
    }
    let child = ChildFmu::start(rt, alloc, host, name, directory, shape)?;
    match Box::new(alloc, child) {
        Ok(child) => Ok(HostLink::Child(child)),
        Err(AllocFailed { value, .. }) => {
            value.end();
            Err(StartFault::Memory)
        }
    }
}

// An instance of the built-in machine that the shape's identifier names. It keeps no talk.
fn start_built_in(
    alloc: Global,
    host: &str,
    name: &str,
    directory: &str,
    shape: &Shape,
) -> Result<HostLink<Pipes>, StartFault>
    requires { host.now ≡ built_in_host }
    ensures fresh { IfOk result (λ l. IsStarted host.now name.now directory.now shape.now
        (host_link_view l)) }
    ensures unknown { AnswersUnknown (is_model shape.now.identifier) result }
    ensures host { IfOk result (λ l. IsOfHost host.now shape.now l) }
{
    let Some(model) = Model::from_identifier(shape.identifier.as_str()) else {
        return Err(StartFault::Unknown);
    };
    let Ok(peer) = make_built_in(alloc, model, host, name, directory, shape) else {
        return Err(StartFault::Memory);
    };
    match into_box(alloc, peer) {
        Ok(peer) => Ok(HostLink::BuiltIn(peer)),
        Err(_) => Err(StartFault::Memory),
    }
}

fn into_box(alloc: Global, peer: BuiltIn) -> Result<Box<BuiltIn, Global>, AllocError>
    ensures { IfOk result (λ b. b.value ≡ peer) }
{
    Ok(Box::new(alloc, peer)?)
}

fn make_built_in(
    alloc: Global,
    model: Model,
    host: &str,
    name: &str,
    directory: &str,
    shape: &Shape,
) -> Result<BuiltIn, AllocError>
    ensures fresh { IfOk result (λ b. IsStarted host.now name.now directory.now shape.now
        (built_in_view b)) }
    ensures model { IfOk result (λ b. b.model ≡ model) }
    ensures talk { IfOk result (λ b. b.book.talk ≡ None) }
{
    let origin = Origin::from_texts(alloc, host, name, directory)?;
    let peer = BuiltIn::new(alloc, model, origin, shape, None)?;
    Ok(peer)
}
