//! Built-in machines, scripts, and the spawner of machines.
ghost use Rattle.std.specs.Prelude.{◌≡◌, ◌↔◌, ◌<◌, ◌≤◌, ◌^◌, ◌++◌, ◌∷◌, [], Ok, Err, Some, IfOk, IsErrOf, Contains, false, length, option_map, true, if◌then◌else◌, vec_capacity};
ghost use Rattle.fmi_calls.specs.Permission.{Permitted};
ghost use Rattle.fmi_calls.specs.declared.call.Call.{Call};
ghost use Rattle.fmu_peer.specs.Book.{fills_next};
ghost use Rattle.fmu_peer.specs.Start.{AnswersUnknown, IsStarted, NotesStart};
ghost use Rattle.fmu_peer.specs.View.{Asked, AskedWith, IsDeserialize, Serializes, carries_bytes};
ghost use Rattle.fmu_peer.specs.declared.peer.PeerFault.TheVariants as PeerFault;
ghost use Rattle.fmu_peer.specs.declared.spawner.StartFault.TheVariants as StartFault;
ghost use Rattle.bench_fmus.specs.Answers.{answer_at, calls_in};
ghost use Rattle.bench_fmus.specs.BuiltInView.{built_in_reply, built_in_reply_at, built_in_view};
ghost use Rattle.bench_fmus.specs.Models.{is_model, model_named};
ghost use Rattle.bench_fmus.specs.Rooms.{room_of};
ghost use Rattle.bench_fmus.specs.ScriptView.{script_view};
ghost use Rattle.bench_fmus.specs.Spawners.{bench_view};

use bench_fmus::{Bench, BuiltIn, Script};
use fmi_calls::{Call, Reply};
use fmu_peer::{Peer, PeerFault, Spawner, StartFault};
use std::alloc::Global;
use value_types::Shape;

/// What a machine answers to a call.
pub fn call_machine(machine: &mut BuiltIn, call: &Call) -> Result<Reply, PeerFault>
    requires permitted { Permitted machine.old.book.shape machine.old.book.phase call.now }
    requires plain { carries_bytes call.now ≡ false }
    ensures asked { Asked (built_in_view machine.old) call.now result (built_in_view machine.new) }
    ensures answers { result ≡
        (if fills_next machine.old.book.talk then Err PeerFault.Failed else Ok
        (built_in_reply machine.old call.now)) }
{
    machine.call(call)
}

/// What a machine answers to a Serialize, with the bytes.
pub fn serialize_machine(machine: &mut BuiltIn, into: &mut Vec<u8>) -> Result<Reply, PeerFault>
    requires permitted { Permitted machine.old.book.shape machine.old.book.phase Call.Serialize }
    requires empty { into.old.items ≡ [] }
    requires room { 2 ^ 20 ≤ vec_capacity into.old }
    ensures asked { Asked (built_in_view machine.old) Call.Serialize result
        (built_in_view machine.new) }
    ensures bytes { Serializes (built_in_view machine.old) result into.new.items }
    ensures answers { result ≡
        (if fills_next machine.old.book.talk then Err PeerFault.Failed else Ok
        (built_in_reply machine.old Call.Serialize)) }
{
    machine.serialize(into)
}

/// What a machine answers to a Deserialize of bytes.
pub fn deserialize_machine(
    machine: &mut BuiltIn,
    call: &Call,
    bytes: &[u8],
) -> Result<Reply, PeerFault>
    requires permitted { Permitted machine.old.book.shape machine.old.book.phase call.now }
    requires length { IsDeserialize call.now (length bytes.now) }
    ensures asked { AskedWith (built_in_view machine.old) call.now bytes.now result
        (built_in_view machine.new) }
    ensures answers { result ≡
        (if fills_next machine.old.book.talk then Err PeerFault.Failed else Ok
        (built_in_reply_at machine.old call.now bytes.now)) }
{
    machine.deserialize(call, bytes)
}

/// What a script answers to a call.
pub fn call_script(script: &mut Script, call: &Call) -> Result<Reply, PeerFault>
    requires permitted { Permitted script.old.book.shape script.old.book.phase call.now }
    requires plain { carries_bytes call.now ≡ false }
    ensures asked { Asked (script_view script.old) call.now result (script_view script.new) }
    ensures answers { result ≡ answer_at script.old.answers (calls_in script.old.book.talk) }
    ensures list { script.new.answers ≡ script.old.answers }
{
    script.call(call)
}

/// A machine that was started is taken back.
pub fn retire_machine(bench: &mut Bench, link: BuiltIn)
    requires { length bench.old.retired.peers.items < bench.old.retired.started }
    ensures retired { bench.new.retired.peers.items ≡ bench.old.retired.peers.items ++ link ∷ [] }
    ensures started { bench.new.retired.started ≡ bench.old.retired.started }
{
    bench.retire(link);
}

/// Starts a machine that is known by its name, and makes the room to take it back.
pub fn start_machine(
    bench: &mut Bench,
    alloc: Global,
    host: &str,
    name: &str,
    directory: &str,
    shape: &Shape,
) -> Result<BuiltIn, StartFault>
    requires name { (1 ≤ length name.now) × (length name.now ≤ 2 ^ 24) }
    requires token { length shape.now.token ≤ 2 ^ 24 }
    ensures fresh { IfOk result (λ b. IsStarted host.now name.now directory.now shape.now
        (built_in_view b)) }
    ensures model { IfOk result (λ b. model_named shape.now.identifier ≡ Some b.model) }
    ensures talk { IfOk result (λ b. option_map (λ t. t.room) b.book.talk ≡
        room_of bench.old.room bench.old.failing_calls bench.old.plan.starts) }
    ensures failed { (result ≡ Err StartFault.Failed) ↔ Contains bench.old.plan.failing
        bench.old.plan.starts }
    ensures unknown { AnswersUnknown (is_model shape.now.identifier) result }
    ensures memory { IsErrOf result StartFault.Memory → is_model shape.now.identifier ≡ true }
    ensures noted { NotesStart (bench_view bench.old) (bench_view bench.new) result }
{
    bench.start(alloc, host, name, directory, shape)
}
