//! What stands at the edge: streams, files, a host's end of a link, and FMUs by their hosts.
ghost use Rattle.std.specs.Prelude.{IfOk, None, false, length, ◌^◌, ◌≡◌, ◌≤◌};
ghost use Rattle.child_hosts.specs.Links.{IsOfHost, child_view, host_link_view, hosts_view, is_known};
ghost use Rattle.fmi_calls.specs.Permission.{Permitted};
ghost use Rattle.fmu_link.specs.Exchange.{Exchanged};
ghost use Rattle.fmu_link.specs.Piped.{line_view};
ghost use Rattle.fmu_peer.specs.Start.{AnswersUnknown, IsMade, IsStarted, NotesStart};
ghost use Rattle.fmu_peer.specs.View.{Asked, carries_bytes};
ghost use Rattle.host_edge.specs.InStreams.{Retries};
ghost use Rattle.host_edge.specs.Reading.{Opens};
ghost use Rattle.host_serving.specs.Serving.{HasServed, scene};
ghost use Rattle.host_serving.specs.Told.{ServesAsTold};
ghost use Rattle.sim_base.specs.Folder.{KeepsLimit, NotesRead, folder_view};
ghost use Rattle.sim_base.specs.Source.{NotesTake, source_view};

use child_hosts::{ChildFmu, HostLink, Hosts, Pipes};
use fmi_calls::{Call, Reply};
use fmu_link::Wire;
use fmu_peer::{Peer, PeerFault, Spawner, StartFault};
use host_edge::{InStream, OpenFiles, OpenedFolder, StreamSource};
use host_serving::{ServeEnd, serve};
use sim_base::{Folder, ReadFault, SharedBytes, Sink, Source, SourceFault};
use std::alloc::Global;
use std::process::{Processes, SystemProcess};
use value_types::Shape;

/// Takes bytes from a stream.
pub fn take_bytes<R: InStream>(
    source: &mut StreamSource<R>,
    into: &mut [u8],
) -> Result<usize, SourceFault>
    ensures noted { NotesTake (source_view (R.view source.old.stream).left source.old.faults)
        (source_view (R.view source.new.stream).left source.new.faults) into.new result }
    ensures retried { Retries (R.view source.old.stream).counts
        (R.view source.new.stream).counts result }
{
    source.take(into)
}

/// Reads the whole file at a path, of at most `limit` bytes.
pub fn read_file<H: OpenFiles>(
    folder: &mut OpenedFolder<H>,
    alloc: Global,
    path: &str,
    limit: u64,
) -> Result<SharedBytes, ReadFault>
    ensures within { KeepsLimit limit result }
    ensures noted { NotesRead (folder_view None folder.old.book)
        (folder_view None folder.new.book) path.now result }
    ensures opened { Opens (H.opened folder.old.host) (H.opened folder.new.host) folder.old.book
        folder.new.book }
{
    folder.read(alloc, path, limit)
}

/// Serves the calls that come as frames, one after another.
pub fn serve_calls<I: Source, O: Sink, M: Peer>(
    alloc: Global,
    input: &mut I,
    output: &mut O,
    machine: &mut M,
) -> ServeEnd
    ensures served { HasServed (scene (I.view input.old) (O.view output.old) (M.view machine.old))
        (scene (I.view input.new) (O.view output.new) (M.view machine.new)) result }
    ensures told { ServesAsTold (scene (I.view input.old) (O.view output.old) (M.view machine.old))
        (scene (I.view input.new) (O.view output.new) (M.view machine.new)) result }
{
    serve(alloc, input, output, machine)
}

/// What an FMU in a child process answers to a call.
pub fn call_child<W: Wire + Send>(child: &mut ChildFmu<W>, call: &Call) -> Result<Reply, PeerFault>
    requires permitted { Permitted child.old.peer.instance.shape child.old.peer.instance.phase
        call.now }
    requires plain { carries_bytes call.now ≡ false }
    ensures asked { Asked (child_view W.view child.old) call.now result
        (child_view W.view child.new) }
    ensures exchanged { Exchanged call.now child.old.peer.instance.name
        child.old.peer.instance.shape.token (line_view W.view child.old.peer)
        (line_view W.view child.new.peer) result }
{
    child.call(call)
}

/// Starts an FMU by its host.
pub fn start_by_host<R: Processes<Started = SystemProcess>>(
    hosts: &mut Hosts<'_, R>,
    alloc: Global,
    host: &str,
    name: &str,
    directory: &str,
    shape: &Shape,
) -> Result<HostLink<Pipes>, StartFault>
    requires name { (1 ≤ length name.now) × (length name.now ≤ 2 ^ 24) }
    requires token { length shape.now.token ≤ 2 ^ 24 }
    ensures fresh { IfOk result (λ link. IsStarted host.now name.now directory.now shape.now
        (host_link_view link)) }
    ensures made { IfOk result (λ link. IsMade (hosts_view hosts.old) host.now shape.now
        (host_link_view link)) }
    ensures unknown { AnswersUnknown (is_known host.now shape.now.identifier) result }
    ensures noted { NotesStart (hosts_view hosts.old) (hosts_view hosts.new) result }
    ensures host { IfOk result (λ link. IsOfHost host.now shape.now link) }
{
    hosts.start(alloc, host, name, directory, shape)
}
