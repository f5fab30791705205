//! Checkpoints: as bytes, and with the files of their systems.
ghost use Rattle.std.specs.Prelude.{All, IfErr, IfOk, length, vec_capacity, vec_len, ◌++◌, ◌+◌, ◌<◌, ◌^◌, ◌≡◌, ◌≤◌};
ghost use Rattle.checkpoint_loading.specs.Loading.{EndsRest, Loads, Rests};
ghost use Rattle.system_checkpoint.specs.Parts.{state_max};
ghost use Rattle.system_checkpoint.specs.Spelling.{CanBeHeld, spelling};
ghost use Rattle.system_checkpoint.specs.Whole.{Answers};
ghost use Rattle.system_files.specs.Loads.{IsNamed};
ghost use Rattle.system_model.specs.Bounds.{BindsParameters};
ghost use Rattle.system_model.specs.Sound.{IsSound};
ghost use Rattle.system_model.specs.declared.system.Component.{Component};
ghost use Rattle.trace_text.specs.Holding.{IsHoldable};

use checkpoint_loading::{HeldRun, RestEnd, load_rest};
use sim_base::{Folder, SharedBytes};
use std::alloc::Global;
use system_checkpoint::{CheckpointFault, Snapshot, put_checkpoint, read_checkpoint};
use system_model::System;

/// Puts what a held run keeps. There is room for it.
pub fn put_held(held: &Snapshot, header: &[u8], out: &mut Vec<u8>)
    requires header { length header.now < 2 ^ 32 }
    requires states { All (λ state. length state ≤ state_max) held.now.states }
    requires room { vec_len out.old + length
        (spelling header.now held.now) ≤ vec_capacity out.old }
    ensures text { out.new.items ≡ out.old.items ++ spelling header.now held.now }
    ensures room { vec_capacity out.old ≤ vec_capacity out.new }
{
    put_checkpoint(held, header, out);
}

/// What the bytes keep of a run of a system, whose trace has this header.
pub fn read_held(
    alloc: Global,
    bytes: &SharedBytes,
    system: &System,
    header: &[u8],
) -> Result<Snapshot, CheckpointFault>
    requires { length header.now < 2 ^ 32 }
    ensures { Answers system.now header.now bytes.now result }
{
    read_checkpoint(alloc, bytes, system, header)
}

/// Reads the checkpoint in a file, and the files of its system.
pub fn load_held_run<F: Folder>(
    alloc: Global,
    directory: &str,
    file: &str,
    folder: &mut F,
) -> Result<HeldRun, RestEnd>
    ensures ok { IfOk result
        (λ run. Loads (record { directory = directory.now; file = file.now })
        (Rests run.loaded run.held) (F.view folder.old) (F.view folder.new)) }
    ensures holdable { IfOk result (λ run. IsHoldable run.loaded.system run.held.plan) }
    ensures kept { IfOk result (λ run. CanBeHeld run.loaded.system run.held) }
    ensures sound { IfOk result (λ run. IsSound run.loaded.system) }
    ensures named { IfOk result (λ run. All IsNamed run.loaded.system.components) }
    ensures counts { IfOk result
        (λ run. All (λ (c : Component). c.shape.resolution ≡ run.held.plan.resolution)
        run.loaded.system.components) }
    ensures bound { IfOk result (λ run. BindsParameters run.loaded.system run.loaded.bound) }
    ensures err { IfErr result
        (λ end. EndsRest (record { directory = directory.now; file = file.now }) end
        (F.view folder.old) (F.view folder.new)) }
{
    load_rest(alloc, directory, file, folder)
}
