//! Runs of commands over built-in machines and over scripts.
ghost use Rattle.std.specs.Prelude.{◌<◌, IfSome};

use crate::case::{Case, Line};
use crate::exchanges::{tell_call, tell_count};
use crate::given::Given;
use crate::texts::Texts;
use crate::wires::Wires;
use bench_fmus::{Bench, BuiltIn, FailingCall, Script};
use fmu_peer::{Exchange, Spawner};
use run_program::run_words;
use sim_base::{MemFolder, MemSink};
use std::alloc::{AllocError, Global};
use std::thread::Threads;

/// Runs a command, and tells what it gave.
pub(crate) fn run<R: Threads + Sync>(
    rt: &R,
    alloc: Global,
    case: &Case,
    shared: &Texts,
) -> Result<Given, AllocError> {
    if let Some(line) = &case.line {
        return run_over_wire(rt, alloc, case, shared, line);
    }
    match case.peers {
        Some(count) if case.is_scripted => run_scripts(rt, alloc, case, shared, count),
        _ => run_machines(rt, alloc, case, shared),
    }
}

fn run_machines<R: Threads + Sync>(
    rt: &R,
    alloc: Global,
    case: &Case,
    shared: &Texts,
) -> Result<Given, AllocError> {
    let failing = case.failing.starts.as_slice().to_vec(alloc)?;
    let calls = failing_calls(alloc, case)?;
    let bench = Bench::new(alloc, above_zero(case.room), failing);
    let mut bench = bench.with_failing_calls(calls);
    let mut given = run_over(rt, alloc, case, shared, &mut bench)?;
    tell_hosts(bench.retired_peers(), &mut given.hosts)?;
    if case.peers.is_some() {
        tell_machines(alloc, bench.retired_peers(), &mut given.calls)?;
    }
    Ok(given)
}

fn run_scripts<R: Threads + Sync>(
    rt: &R,
    alloc: Global,
    case: &Case,
    shared: &Texts,
    count: usize,
) -> Result<Given, AllocError> {
    let mut scripts = case.exchanges.scripts(alloc, count)?;
    let mut given = run_over(rt, alloc, case, shared, &mut scripts)?;
    tell_talks(alloc, scripts.retired_peers(), &mut given.calls)?;
    Ok(given)
}

fn run_over_wire<R: Threads + Sync>(
    rt: &R,
    alloc: Global,
    case: &Case,
    shared: &Texts,
    line: &Line,
) -> Result<Given, AllocError> {
    let coming = bytes_of(alloc, line.coming.as_str())?;
    let mut failing = Vec::new(alloc);
    if let Some(call) = line.failing {
        failing.push(call)?;
    }
    let mut wires = Wires::new(alloc, coming, failing);
    let mut given = run_over(rt, alloc, case, shared, &mut wires)?;
    for peer in wires.retired_peers() {
        let sent = hex::encode(alloc, peer.wire.sent.as_slice())?;
        given.calls.extend_from_slice(sent.as_bytes())?;
    }
    Ok(given)
}

// The bytes that are written by digits; what isn't written so is none.
fn bytes_of(alloc: Global, digits: &str) -> Result<Vec<u8>, AllocError> {
    match hex::decode(alloc, digits) {
        Ok(bytes) => Ok(bytes),
        Err(_) => Ok(Vec::new(alloc)),
    }
}

fn failing_calls(alloc: Global, case: &Case) -> Result<Vec<FailingCall>, AllocError> {
    let mut calls = Vec::new(alloc);
    if let Some(call) = case.failing.call {
        calls.push(call)?;
    }
    Ok(calls)
}

// A room of nothing is none.
fn above_zero(room: Option<usize>) -> Option<usize>
    ensures { IfSome result (λ n. 0 < n) }
{
    match room {
        Some(n) if n > 0 => Some(n),
        _ => None,
    }
}

fn run_over<R: Threads + Sync, S: Spawner>(
    rt: &R,
    alloc: Global,
    case: &Case,
    shared: &Texts,
    spawner: &mut S,
) -> Result<Given, AllocError> {
    let mut folder = case.folder(alloc, shared)?;
    let mut given = run_in(rt, alloc, case, &mut folder, spawner)?;
    tell_reads(&folder, &mut given.asked)?;
    Ok(given)
}

fn run_in<R: Threads + Sync, S: Spawner>(
    rt: &R,
    alloc: Global,
    case: &Case,
    folder: &mut MemFolder,
    spawner: &mut S,
) -> Result<Given, AllocError> {
    let words = case.split_words(alloc)?;
    let failing = case.failing.outs.as_slice().to_vec(alloc)?;
    let mut out = MemSink::with_room(alloc, 1_000_000, 400, failing)?;
    let failing = case.failing.errs.as_slice().to_vec(alloc)?;
    let mut err = MemSink::with_room(alloc, 1_000_000, 1, failing)?;
    let status = run_words(rt, alloc, &words, folder, spawner, &mut out, &mut err);
    given_of(alloc, status, &out, &err)
}

fn given_of(alloc: Global, status: u8, out: &MemSink, err: &MemSink) -> Result<Given, AllocError> {
    Ok(Given {
        status,
        out: out.bytes.as_slice().to_vec(alloc)?,
        err: err.bytes.as_slice().to_vec(alloc)?,
        asked: Vec::new(alloc),
        hosts: Vec::new(alloc),
        calls: Vec::new(alloc),
    })
}

// The paths that were asked for, each on a line.
fn tell_reads(folder: &MemFolder, told: &mut Vec<u8>) -> Result<(), AllocError> {
    for read in folder.book.reads() {
        told.extend_from_slice(read.path.as_str().as_bytes())?;
        told.push(b'\n')?;
    }
    Ok(())
}

// The host and the directory of each machine, on a line.
fn tell_hosts(machines: &[BuiltIn], told: &mut Vec<u8>) -> Result<(), AllocError> {
    for machine in machines {
        told.extend_from_slice(machine.origin.host.as_str().as_bytes())?;
        told.push(b' ')?;
        told.extend_from_slice(machine.origin.directory.as_str().as_bytes())?;
        told.push(b'\n')?;
    }
    Ok(())
}

// How many scripts were taken back, and the calls that they got.
fn tell_talks(alloc: Global, scripts: &[Script], told: &mut Vec<u8>) -> Result<(), AllocError> {
    tell_count(alloc, scripts.len(), told)?;
    for component in 0..scripts.len() {
        if let Some(talk) = scripts[component].talk() {
            tell_talk(alloc, component, talk, told)?;
        }
    }
    Ok(())
}

// How many machines were taken back, and the calls that they got.
fn tell_machines(
    alloc: Global,
    machines: &[BuiltIn],
    told: &mut Vec<u8>,
) -> Result<(), AllocError> {
    tell_count(alloc, machines.len(), told)?;
    for component in 0..machines.len() {
        if let Some(talk) = machines[component].talk() {
            tell_talk(alloc, component, talk, told)?;
        }
    }
    Ok(())
}

// The calls of a talk, each on a line.
fn tell_talk(
    alloc: Global,
    component: usize,
    talk: &[Exchange],
    told: &mut Vec<u8>,
) -> Result<(), AllocError> {
    for exchange in talk {
        let call = exchange.call;
        tell_call(
            alloc,
            component,
            format!(in alloc; "{call:?}")?.as_str(),
            told,
        )?;
    }
    Ok(())
}
