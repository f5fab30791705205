ghost use Rattle.std.specs.Prelude.{◌≡◌, ◌↔◌, ◌≤◌, ◌^◌, [], false, IfOk, IfErr, IsTrue, length, vec_capacity};
ghost use Rattle.std.specs.IoError.{error_kind};
ghost use Rattle.fmi_calls.specs.Permission.{Permitted};
ghost use Rattle.fmi_calls.specs.declared.phase.InstanceState.TheVariants.{Gone};
ghost use Rattle.fmu_link.specs.Batches.{GoAsAgreed};
ghost use Rattle.fmu_link.specs.Exchange.{Exchanged, ExchangedState, ExchangedWith};
ghost use Rattle.fmu_link.specs.Piped.{line_view};
ghost use Rattle.fmu_peer.specs.Many.{AreOfOneSort, AskedMany, MayAskAll};
ghost use Rattle.fmu_peer.specs.View.{Asked, AskedWith, IsDeserialize, Serializes, carries_bytes};
ghost use Rattle.fmu_peer.specs.declared.spawner.StartFault.TheVariants.{Unknown};
ghost use Rattle.child_hosts.specs.Links.{child_view, start_fault};

use crate::{ChildInput, PipeWire};
use fmi_calls::{Call, InstanceState, Phase, Reply};
use fmu_link::{Piped, Unmade, Wire};
use fmu_peer::{Peer, PeerFault, StartFault};
use itoa::Buffer;
use std::alloc::Global;
use std::io::{self, ErrorKind};
use std::process::{Child, ChildStdout, Command, Processes, Stdio, SystemProcess};
use value_types::Shape;

/// The pipes to a child process and from it.
pub type Pipes = PipeWire<ChildStdout, ChildInput>;

/// An FMU behind a wire, and the child process at the wire's other end. It can't be dropped: it has to be ended.
pub struct ChildFmu<W> {
    pub peer: Piped<W>,
    pub child: Child,
}

// A child process with the ends of its pipes.
struct Started {
    wire: Pipes,
    child: Child,
}

impl ChildFmu<Pipes> {
    ghost use Rattle.fmu_peer.specs.Start.{IsStarted};
    ghost use Rattle.child_hosts.specs.Links.{pipes_view};

    /// Starts a program with two arguments, a directory and how many counts a second has in decimal, as the host of an FMU
    /// before its first call. Its standard input and output are the FMU's wire.
    pub fn start<R: Processes<Started = SystemProcess>>(
        rt: &R,
        alloc: Global,
        program: &str,
        name: &str,
        directory: &str,
        shape: &Shape,
    ) -> Result<ChildFmu<Pipes>, StartFault>
        requires name { (1 ≤ length name.now) × (length name.now ≤ 2 ^ 24) }
        requires token { length shape.now.token ≤ 2 ^ 24 }
        ensures fresh { IfOk result (λ c. IsStarted program.now name.now directory.now shape.now
            (child_view pipes_view c)) }
        ensures known { IfErr result (λ e. e ≡ Unknown → ⊥) }
    {
        let Started { wire, child } = match start_program(
            rt,
            alloc,
            program,
            directory,
            shape.resolution,
        ) {
            Ok(started) => started,
            Err(error) => return Err(start_fault(&error)),
        };
        match Piped::start(alloc, wire, program, name, directory, shape) {
            Ok(peer) => Ok(ChildFmu { peer, child }),
            Err(Unmade::Memory { wire }) => {
                drop(wire);
                end_child(child, false);
                Err(StartFault::Memory)
            }
        }
    }
}

impl<W: Wire + Send + Drop> ChildFmu<W> {
    /// Whether the FMU was freed, so that its child ends by itself and is waited for.
    pub fn is_freed(&self) -> bool
        ensures { IsTrue result ↔ (self.now.peer.instance.phase.state ≡ Gone) }
    {
        self.peer.phase().state == InstanceState::Gone
    }

    /// Closes the wire, and waits until the child has ended; where its FMU wasn't freed it is killed first.
    pub fn end(self) {
        let is_freed = self.is_freed();
        let ChildFmu { peer, child } = self;
        drop(peer.into_wire());
        end_child(child, is_freed);
    }
}

// Waits until a child has ended; where its FMU wasn't freed it is killed first. Nothing can be done where that fails.
fn end_child(mut child: Child, is_freed: bool) {
    if !is_freed {
        let _ = child.kill();
    }
    let _ = child.wait();
}

// A program with two arguments, and with pipes.
fn host_command(
    alloc: Global,
    program: &str,
    directory: &str,
    resolution: u64,
) -> io::Result<Command> {
    let mut digits = Buffer::new();
    let mut command = Command::new(alloc, program)?;
    command.arg(directory)?.arg(digits.format(resolution))?;
    command.stdin(Stdio::piped()).stdout(Stdio::piped());
    Ok(command)
}

// Takes the ends of a child's pipes.
fn take_ends(mut child: Child) -> io::Result<Started>
    ensures { IfOk result (λ s. s.wire.faults ≡ 0) }
{
    match (child.stdout.take(), child.stdin.take()) {
        (Some(reader), Some(pipe)) => Ok(Started {
            wire: PipeWire::new(reader, ChildInput { pipe }),
            child,
        }),
        _ => {
            end_child(child, false);
            Err(ErrorKind::BrokenPipe.into())
        }
    }
}

// Starts a program with two arguments, and takes the ends of its pipes.
fn start_program<R: Processes<Started = SystemProcess>>(
    rt: &R,
    alloc: Global,
    program: &str,
    directory: &str,
    resolution: u64,
) -> io::Result<Started>
    ensures { IfOk result (λ s. s.wire.faults ≡ 0) }
{
    let mut command = host_command(alloc, program, directory, resolution)?;
    take_ends(command.spawn(rt)?)
}

fn start_fault(error: &io::Error) -> StartFault
    ensures { result ≡ start_fault (error_kind error.now) }
{
    match error.kind() {
        ErrorKind::OutOfMemory => StartFault::Memory,
        _ => StartFault::Failed,
    }
}

impl<W: Wire + Send> Peer for ChildFmu<W> {
    ghost view = { child_view W.view };

    ghost machine = { λ c. tt };

    ghost in_phase = { λ c. tt };

    ghost ignores_slot = { λ c. tt };

    ghost unpacks = { λ c. tt };

    ghost lawful = { λ c. tt };

    fn shape(&self) -> &Shape {
        self.peer.shape()
    }

    fn phase(&self) -> &Phase {
        self.peer.phase()
    }

    #[inline(never)]
    fn call(&mut self, call: &Call) -> Result<Reply, PeerFault>
        requires permitted { Permitted self.old.peer.instance.shape self.old.peer.instance.phase
            call.now }
        requires plain { carries_bytes call.now ≡ false }
        ensures asked { Asked (child_view W.view self.old) call.now result
            (child_view W.view self.new) }

        // The child is asked over the wire, and what comes is its reply.
        ensures exchanged { Exchanged call.now self.old.peer.instance.name
            self.old.peer.instance.shape.token (line_view W.view self.old.peer)
            (line_view W.view self.new.peer) result }
    {
        self.peer.call(call)
    }

    #[inline(never)]
    fn call_many(&mut self, calls: &[Call], replies: &mut [Reply]) -> Result<usize, PeerFault>
        requires sort { AreOfOneSort calls.now }
        requires places { length replies.old ≡ length calls.now }
        requires may { MayAskAll self.old.peer.instance.shape self.old.peer.instance.phase
            calls.now }
        ensures places { length replies.new ≡ length calls.now }
        ensures asked { AskedMany (child_view W.view self.old) calls.now replies.old replies.new
            result (child_view W.view self.new) }

        // Where batches were agreed, the child is sent the calls in one.
        ensures agreed { GoAsAgreed self.old.peer.instance.takes_batches calls.now
            (line_view W.view self.old.peer) (line_view W.view self.new.peer) replies.new result }
    {
        self.peer.call_many(calls, replies)
    }

    #[inline(never)]
    fn serialize(&mut self, into: &mut Vec<u8>) -> Result<Reply, PeerFault>
        requires permitted { Permitted self.old.peer.instance.shape self.old.peer.instance.phase
            Call.Serialize }
        requires empty { into.old.items ≡ [] }
        requires room { 2 ^ 20 ≤ vec_capacity into.old }
        ensures asked { Asked (child_view W.view self.old) Call.Serialize result
            (child_view W.view self.new) }
        ensures bytes { Serializes (child_view W.view self.old) result into.new.items }
        ensures room { vec_capacity into.old ≤ vec_capacity into.new }

        // The bytes of the state come after the child's reply.
        ensures exchanged { ExchangedState self.old.peer.instance.name
            self.old.peer.instance.shape.token (line_view W.view self.old.peer)
            (line_view W.view self.new.peer) result into.new.items }
    {
        self.peer.serialize(into)
    }

    #[inline(never)]
    fn deserialize(&mut self, call: &Call, bytes: &[u8]) -> Result<Reply, PeerFault>
        requires permitted { Permitted self.old.peer.instance.shape self.old.peer.instance.phase
            call.now }
        requires length { IsDeserialize call.now (length bytes.now) }
        ensures asked { AskedWith (child_view W.view self.old) call.now bytes.now result
            (child_view W.view self.new) }

        // The child is sent the bytes after the call's frame.
        ensures exchanged { ExchangedWith call.now bytes.now self.old.peer.instance.name
            self.old.peer.instance.shape.token (line_view W.view self.old.peer)
            (line_view W.view self.new.peer) result }
    {
        self.peer.deserialize(call, bytes)
    }
}
