//! The file of a checkpoint, and the files of the system that it is of.
ghost use Rattle.std.specs.Prelude.{◌≡◌, ℕ, List, All, IfErr, IfOk};
ghost use Rattle.system_model.specs.declared.system.Component.{Component};
ghost use Rattle.system_model.specs.Bounds.{BindsParameters};
ghost use Rattle.system_model.specs.Sound.{IsSound};
ghost use Rattle.system_checkpoint.specs.First.{HasPlan};
ghost use Rattle.system_checkpoint.specs.Spelling.{CanBeHeld};
ghost use Rattle.system_checkpoint.specs.Whole.{Answers};
ghost use Rattle.trace_text.specs.Holding.{IsHoldable};
ghost use Rattle.system_files.specs.Loads.{IsNamed};
ghost use Rattle.checkpoint_loading.specs.Loading.{EndsRest, Loads, Rests, TakesBytes, header_by};
ghost use Rattle.checkpoint_loading.specs.Steps.{EndsSystem, LacksBytes, TakesRest, end_at, end_of, unread_end};

use crate::rest::{HeldRun, RestEnd};
use sim_base::{Folder, ReadFault, SharedBytes, Text};
use std::alloc::Global;
use system_checkpoint::{
    CheckpointFault, Snapshot, checkpoint_laws, plan_laws, read_checkpoint, read_plan,
};
use system_files::{FileFault, LoadError, NamedFile, NoMemory, load_held};
use system_model::{Plan, System};
use trace_text::{put_header, room_for};

// The most bytes of a checkpoint's file (512 MiB).
const MOST_CHECKPOINT_BYTES: u64 = 1 << 29;

/// Reads the checkpoint in a file, and then the files of the system in a directory with the plan that it begins with.
/// Answers the system and what the checkpoint keeps of its run; or the file that isn't taken, and why; or the first byte
/// of the checkpoint's file that continues no checkpoint of that system, or its length.
pub fn load_rest<F: Folder>(
    alloc: Global,
    directory: &str,
    file: &str,
    folder: &mut F,
) -> Result<HeldRun, RestEnd>
    ensures ok { IfOk result
        (λ run. Loads (record { directory = directory.now; file = file.now })
        (Rests run.loaded run.held) (F.view folder.old) (F.view folder.new)) }
    ensures holdable { IfOk result (λ run. IsHoldable run.loaded.system run.held.plan) }
    ensures kept { IfOk result (λ run. CanBeHeld run.loaded.system run.held) }
    ensures sound { IfOk result (λ run. IsSound run.loaded.system) }
    ensures named { IfOk result (λ run. All IsNamed run.loaded.system.components) }
    ensures counts { IfOk result
        (λ run. All (λ (c : Component). c.shape.resolution ≡ run.held.plan.resolution)
        run.loaded.system.components) }
    ensures bound { IfOk result (λ run. BindsParameters run.loaded.system run.loaded.bound) }
    ensures err { IfErr result
        (λ end. EndsRest (record { directory = directory.now; file = file.now }) end
        (F.view folder.old) (F.view folder.new)) }
{
    checkpoint_laws();
    plan_laws();
    let Ok(named) = name_file(alloc, file) else {
        return Err(RestEnd::Memory);
    };
    match read_bytes(alloc, named, folder) {
        Ok((named, bytes)) => match read_plan(bytes.as_slice()) {
            Ok(plan) => load_after(alloc, directory, plan, named, &bytes, folder),
            Err(fault) => Err(refuse(named, fault)),
        },
        Err(end) => Err(end),
    }
}

// The file at a path, before it is read.
fn name_file(alloc: Global, path: &str) -> Result<NamedFile, NoMemory>
    ensures { IfOk result (λ file. file.path ≡ path.now) }
{
    NamedFile::new(alloc, Text::from_str(alloc, path)?)
}

// The bytes of the checkpoint.
fn read_bytes<F: Folder>(
    alloc: Global,
    file: NamedFile,
    folder: &mut F,
) -> Result<(NamedFile, SharedBytes), RestEnd>
    ensures ok { IfOk result (λ read. (read.0.path ≡ file.path) ×
        ((directory : List ℕ) → TakesBytes (record { directory = directory; file = file.path }) read.1
        (F.view folder.old) (F.view folder.new))) }
    ensures err { IfErr result (λ end. (directory : List ℕ) →
        LacksBytes (record { directory = directory; file = file.path }) end
        (F.view folder.old) (F.view folder.new)) }
{
    match folder.read(alloc, file.path.as_str(), MOST_CHECKPOINT_BYTES) {
        Ok(bytes) => Ok((file, bytes)),
        Err(fault) => Err(leave_unread(file, fault)),
    }
}

// The end at a file that wasn't answered.
fn leave_unread(file: NamedFile, fault: ReadFault) -> RestEnd
    ensures { result ≡ unread_end file fault }
{
    match fault {
        ReadFault::Failed => RestEnd::File {
            file,
            fault: FileFault::Unread,
        },
        ReadFault::Missing => RestEnd::File {
            file,
            fault: FileFault::Missing,
        },
        ReadFault::TooBig { .. } => RestEnd::File {
            file,
            fault: FileFault::TooBig,
        },
        ReadFault::Memory => RestEnd::Memory,
    }
}

// The system, and the rest of the checkpoint by it.
fn load_after<F: Folder>(
    alloc: Global,
    directory: &str,
    plan: Plan,
    file: NamedFile,
    bytes: &SharedBytes,
    folder: &mut F,
) -> Result<HeldRun, RestEnd>
    requires { HasPlan bytes.now plan }
    ensures ok { IfOk result (λ run. TakesRest directory.now plan bytes.now run
        (F.view folder.old) (F.view folder.new)) }
    ensures holdable { IfOk result (λ run. IsHoldable run.loaded.system run.held.plan) }
    ensures kept { IfOk result (λ run. CanBeHeld run.loaded.system run.held) }
    ensures sound { IfOk result (λ run. IsSound run.loaded.system) }
    ensures named { IfOk result (λ run. All IsNamed run.loaded.system.components) }
    ensures counts { IfOk result
        (λ run. All (λ (c : Component). c.shape.resolution ≡ run.held.plan.resolution)
        run.loaded.system.components) }
    ensures bound { IfOk result (λ run. BindsParameters run.loaded.system run.loaded.bound) }
    ensures err { IfErr result (λ end. EndsSystem directory.now plan bytes.now file.path end
        (F.view folder.old) (F.view folder.new)) }
{
    checkpoint_laws();
    plan_laws();
    match load_held(alloc, directory, plan, folder) {
        Ok(loaded) => match read_held(alloc, &loaded.system, plan, bytes) {
            Ok(held) => Ok(HeldRun { loaded, held }),
            Err(fault) => Err(refuse(file, fault)),
        },
        Err(end) => Err(leave_unloaded(end)),
    }
}

// The end at the files of the system.
fn leave_unloaded(end: LoadError) -> RestEnd
    ensures { result ≡ end_of end }
{
    match end {
        LoadError::File { file, fault } => RestEnd::File { file, fault },
        LoadError::Memory => RestEnd::Memory,
    }
}

// What the checkpoint keeps of a run of the system.
fn read_held(
    alloc: Global,
    system: &System,
    plan: Plan,
    bytes: &SharedBytes,
) -> Result<Snapshot, CheckpointFault>
    requires holdable { IsHoldable system.now plan }
    ensures { Answers system.now (header_by system.now plan) bytes.now result }
{
    let Some(room) = room_for(system) else {
        return Err(CheckpointFault::Memory);
    };
    let Ok(mut header) = vec![in alloc; 0u8; room] else {
        return Err(CheckpointFault::Memory);
    };
    let length = put_header(system, plan.resolution, plan.start, plan.stop, &mut header);
    read_checkpoint(alloc, bytes, system, &header[..length])
}

// The end at a file that holds no checkpoint.
fn refuse(file: NamedFile, fault: CheckpointFault) -> RestEnd
    ensures { result ≡ end_at file fault }
{
    match fault {
        CheckpointFault::Bad { at } => RestEnd::NoCheckpoint { file, at },
        CheckpointFault::Memory => RestEnd::Memory,
    }
}
