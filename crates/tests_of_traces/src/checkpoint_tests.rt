//! A run that is held as bytes, of a system without components, and what is told of bytes that are none.
use sim_base::{Items, SharedBytes};
use std::alloc::{AllocError, Global};
use std::test::Fail;
use system_checkpoint::{
    CheckpointFault, Snapshot, checkpoint_len, put_checkpoint, read_checkpoint, read_plan,
};
use system_model::{Plan, System};

const HEADER: &[u8] = b"h\n";

// A run of a system without components, from 0 to 10 in steps of 5, held at 5: 1000 counts a second, 100 instants.
const BYTES: &[u8; 62] = b"SSPCKPT1\
    \0\0\0\0\0\0\x03\xE8\0\0\0\0\0\0\0\0\0\0\0\0\0\0\0\x05\0\0\0\0\0\0\0\x0A\0\0\0\0\0\0\0\x64\0\0\0\0\0\0\0\x05\
    \0\0\0\x02h\n";

fn empty(alloc: Global) -> System {
    System {
        components: Items::from_vec(Vec::new(alloc)),
        ports: Items::from_vec(Vec::new(alloc)),
        instant_order: Items::from_vec(Vec::new(alloc)),
        initial_order: Items::from_vec(Vec::new(alloc)),
    }
}

fn shared(alloc: Global, bytes: &[u8]) -> Result<SharedBytes, AllocError> {
    SharedBytes::new(alloc, bytes.to_vec(alloc)?)
}

const PLAN: Plan = Plan {
    resolution: 1000,
    start: 0,
    step: 5,
    stop: 10,
    limit: 100,
    workers: 1,
    link: 1,
};

// Whether the plan and the point are those of the run.
fn is_read_back(alloc: Global, bytes: &SharedBytes, system: &System) -> bool {
    match read_checkpoint(alloc, bytes, system, HEADER) {
        Ok(held) => held.plan == PLAN && held.point == 5,
        Err(_) => false,
    }
}

// Whether the bytes are put, of a run without components.
fn is_put(alloc: Global) -> Result<bool, AllocError> {
    let mut out = Vec::with_capacity(alloc, 62)?;
    let none = Snapshot {
        plan: PLAN,
        point: 5,
        states: Items::from_vec(Vec::new(alloc)),
        words: Items::from_vec(Vec::new(alloc)),
        times: Items::from_vec(Vec::new(alloc)),
        armings: Items::from_vec(Vec::new(alloc)),
        events: Items::from_vec(Vec::new(alloc)),
    };
    put_checkpoint(&none, HEADER, &mut out);
    Ok(out.as_slice() == BYTES.as_slice())
}

#[test]
fn a_run_is_held_and_read_back(rt: HostRuntime) -> Result<(), Fail> {
    let alloc = rt.alloc();
    assert_eq!(rt; read_plan(BYTES), Ok(PLAN));
    let is_read_back = is_read_back(alloc, &shared(alloc, BYTES)?, &empty(alloc));
    assert!(rt; is_read_back);
    assert!(rt; is_put(alloc)?);
    assert_eq!(rt; checkpoint_len(0, 0, 2), Some(62));
    assert_eq!(rt; checkpoint_len(256, 65_536, 1 << 27), Some(405_933_372));
    assert_eq!(rt; checkpoint_len(usize::MAX, 0, 0), None);
    Ok(())
}

// Whether these bytes are told as bad at this place.
fn is_bad_at(alloc: Global, bytes: &SharedBytes, system: &System, at: u64) -> bool {
    read_checkpoint(alloc, bytes, system, HEADER).err() == Some(CheckpointFault::Bad { at })
}

// Whether the first bytes, so many of them, are told as bad after the last of them.
fn is_bad_when_cut(alloc: Global, whole: &SharedBytes, system: &System, end: usize) -> bool {
    if end > whole.len() {
        return false;
    }
    match whole.prefix(end) {
        Ok(cut) => is_bad_at(alloc, &cut, system, end as u64),
        Err(_) => false,
    }
}

fn is_each_bad(alloc: Global, whole: &SharedBytes, system: &System) -> bool {
    (0..BYTES.len()).all(|end| is_bad_when_cut(alloc, whole, system, end))
}

// Whether a byte more is told as bad.
fn is_bad_when_longer(alloc: Global, system: &System) -> Result<bool, AllocError> {
    let mut more = Vec::from_slice(alloc, BYTES)?;
    more.push(0)?;
    let longer = SharedBytes::new(alloc, more)?;
    Ok(is_bad_at(alloc, &longer, system, 62))
}

#[test]
fn the_first_byte_that_continues_none_is_told(rt: HostRuntime) -> Result<(), Fail> {
    let alloc = rt.alloc();
    let is_each_bad = is_each_bad(alloc, &shared(alloc, BYTES)?, &empty(alloc));
    assert!(rt; is_each_bad);
    let is_bad_when_longer = is_bad_when_longer(alloc, &empty(alloc))?;
    assert!(rt; is_bad_when_longer);
    assert_eq!(rt;
        read_plan(&BYTES[..40]),
        Err(CheckpointFault::Bad { at: 40 })
    );
    Ok(())
}
