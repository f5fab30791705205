//! Three FMUs side by side, the first two of one source: their system, their peers, and a run of them.
ghost use Rattle.std.specs.Prelude.{◌≡◌, ◌≤◌, ◌^◌, [], ◌∷◌, true, All, IfOk, map};
ghost use Rattle.value_types.specs.Values.{Fits};
ghost use Rattle.value_types.specs.declared.values.PortType.TheVariants as PortType;
ghost use Rattle.system_model.specs.Bounds.{BindsParameters};
ghost use Rattle.system_model.specs.Sound.{IsSound};
ghost use Rattle.step_master.specs.System.{ArePeersOf, IsNew};
ghost use Rattle.worked_rows.specs.Trio.{AreIncValues, component, counting, in_turn, inc_value, number, on_nothing, port, trio};

use fmu_peer::{Peer, Spawner, StartFault};
use sim_base::{CompId, Items, MemSink, PartedText, PortId, SourceId, Text};
use std::alloc::{AllocError, Global};
use std::process::Abort;
use std::thread::Threads;
use step_master::{Master, PrepareEnd, PrepareFault, RunEnd};
use system_model::{Bound, BoundValue, Component, Plan, Port, Role, System};
use value_types::{ByReference, Causality, Dependency, Knowns, PortType, Shape, Variable};

pub(crate) fn make_number(
    alloc: Global,
    name: &str,
    reference: u32,
    causality: Causality,
    start: Option<i128>,
) -> Result<Variable, AllocError>
    ensures { IfOk result (λ v. v ≡ number name.now reference causality start) }
{
    Ok(Variable {
        name: Text::from_str(alloc, name)?,
        aliases: Items::from_vec(Vec::new(alloc)),
        reference,
        kind: Some(PortType::Int32),
        causality,
        clocks: Items::from_vec(Vec::new(alloc)),
        start,
        can_be_set_again: true,
    })
}

// The output depends on nothing.
fn make_dependencies(alloc: Global) -> Result<ByReference<Dependency>, AllocError>
    ensures { IfOk result (λ list. list ≡ on_nothing ∷ []) }
{
    let on = Knowns::Listed(Items::from_vec(Vec::new(alloc)));
    ByReference::new(alloc, vec![in alloc; Dependency { output: 2, on }]?)
}

fn make_variables(alloc: Global, by: i128) -> Result<ByReference<Variable>, AllocError>
    ensures { IfOk result (λ list. list ≡ (counting by true).variables) }
{
    let mut variables = Vec::new(alloc);
    variables.push(make_number(alloc, "inc", 1, Causality::Parameter, Some(by))?)?;
    variables.push(make_number(alloc, "y", 2, Causality::Output, None)?)?;
    ByReference::new(alloc, variables)
}

fn make_counting(alloc: Global, by: i128, has_variable_steps: bool) -> Result<Shape, AllocError>
    ensures { IfOk result (λ shape. shape ≡ counting by has_variable_steps) }
{
    Ok(Shape {
        identifier: Text::from_str(alloc, "counter")?,
        token: Text::from_str(alloc, "{1}")?,
        resolution: 1000,
        has_event_mode: false,
        might_return_early: false,
        has_variable_steps,
        can_save_state: false,
        can_serialize_state: false,
        clocks: ByReference::new(alloc, Vec::new(alloc))?,
        dependencies: make_dependencies(alloc)?,
        initial_dependencies: make_dependencies(alloc)?,
        variables: make_variables(alloc, by)?,
    })
}

pub(crate) fn make_component(
    alloc: Global,
    name: &str,
    source: u32,
    shape: Shape,
) -> Result<Component, AllocError>
    ensures { IfOk result (λ c. c ≡ component name.now source shape) }
{
    Ok(Component {
        name: PartedText::from_text(alloc, Text::from_str(alloc, name)?)?,
        source: SourceId(source),
        shape,
    })
}

fn make_port(alloc: Global, component: u32) -> Result<Port, AllocError>
    ensures { IfOk result (λ made. made ≡ port component) }
{
    Ok(Port {
        component: CompId(component),
        name: Text::from_str(alloc, "y")?,
        kind: PortType::Int32,
        reference: 2,
        role: Role::Output,
        clocks: Items::from_vec(Vec::new(alloc)),
    })
}

fn make_order(alloc: Global) -> Result<Items<PortId>, AllocError>
    ensures { IfOk result (λ order. order ≡ in_turn) }
{
    Ok(Items::from_vec(vec![in alloc; PortId(0), PortId(1), PortId(2)]?))
}

fn make_counter(
    alloc: Global,
    name: &str,
    source: u32,
    by: i128,
    has_variable_steps: bool,
) -> Result<Component, AllocError>
    ensures { IfOk result
        (λ c. c ≡ component name.now source (counting by has_variable_steps)) }
{
    make_component(
        alloc,
        name,
        source,
        make_counting(alloc, by, has_variable_steps)?,
    )
}

// The first and the second count by 2 and take steps of any size, the third counts by 5 and takes those of the plan
// alone.
fn make_components(alloc: Global) -> Result<Items<Component>, AllocError>
    ensures { IfOk result (λ list. list ≡ trio.components) }
{
    let mut components = Vec::new(alloc);
    components.push(make_counter(alloc, "first", 0, 2, true)?)?;
    components.push(make_counter(alloc, "second", 0, 2, true)?)?;
    components.push(make_counter(alloc, "third", 1, 5, false)?)?;
    Ok(Items::from_vec(components))
}

fn make_ports(alloc: Global) -> Result<Items<Port>, AllocError>
    ensures { IfOk result (λ list. list ≡ trio.ports) }
{
    let mut ports = Vec::new(alloc);
    ports.push(make_port(alloc, 0)?)?;
    ports.push(make_port(alloc, 1)?)?;
    ports.push(make_port(alloc, 2)?)?;
    Ok(Items::from_vec(ports))
}

fn make_trio(alloc: Global) -> Result<System, AllocError>
    ensures { IfOk result (λ system. system ≡ trio) }
{
    Ok(System {
        instant_order: make_order(alloc)?,
        initial_order: make_order(alloc)?,
        ports: make_ports(alloc)?,
        components: make_components(alloc)?,
    })
}

// The value that `inc` is bound to.
fn inc_value(inc: i32) -> BoundValue
    ensures value { result ≡ inc_value result.value }
    ensures fits { Fits PortType.Int32 result.value }
{
    BoundValue {
        kind: PortType::Int32,
        reference: 1,
        value: inc.into(),
    }
}

// The value of `inc`, where it is bound.
fn make_values(alloc: Global, inc: Option<i32>) -> Result<Items<BoundValue>, AllocError>
    ensures { IfOk result AreIncValues }
{
    match inc {
        Some(inc) => Ok(Items::from_vec(vec![in alloc; inc_value(inc)]?)),
        None => Ok(Items::from_vec(Vec::new(alloc))),
    }
}

// What each counts by, where that is bound.
fn make_bound(alloc: Global, incs: [Option<i32>; 3]) -> Result<Bound, AllocError>
    ensures { IfOk result (λ bound. BindsParameters trio bound) }
{
    let [first, second, third] = incs;
    let components = vec![in alloc;
        make_values(alloc, first)?,
        make_values(alloc, second)?,
        make_values(alloc, third)?,
    ]?;
    Ok(Bound {
        components: Items::from_vec(components),
        unreached: 0,
    })
}

pub(crate) fn start<S: Spawner>(
    rt: &impl Abort,
    alloc: Global,
    spawner: &mut S,
    component: &Component,
) -> Result<S::Link, StartFault>
    ensures { IfOk result (λ link. IsNew component.now.shape (S.Link.view link)) }
{
    let Ok(name) = component.name.text(alloc) else {
        return Err(StartFault::Memory);
    };
    let name = name.as_str();
    let shape = &component.shape;
    assert!(rt; name.len() >= 1 && name.len() <= 1 << 24);
    assert!(rt; shape.token.as_str().len() <= 1 << 24);
    spawner.start(alloc, "host", name, "fmus/c", shape)
}

// A peer for each component.
#[tactic(auto, using(crate::proofs::TrioSound::trio_peers))]
fn start_trio<S: Spawner>(
    rt: &impl Abort,
    alloc: Global,
    spawner: &mut S,
    system: &System,
) -> Result<Vec<S::Link>, StartFault>
where
    S::Link: Drop,
    requires { system.now ≡ trio }
    ensures { IfOk result (λ peers. ArePeersOf trio (map S.Link.view peers.items)) }
{
    let Ok(mut peers) = Vec::with_capacity(alloc, 3) else {
        return Err(StartFault::Memory);
    };
    let components = system.components.as_slice();
    peers.push_reserved(start(rt, alloc, spawner, &components[0])?);
    peers.push_reserved(start(rt, alloc, spawner, &components[1])?);
    peers.push_reserved(start(rt, alloc, spawner, &components[2])?);
    Ok(peers)
}

/// How a run ended or wasn't prepared, how many instants were put, and the peers.
#[derive(Drop)]
pub(crate) struct Ran<L: Peer> {
    pub(crate) end: Result<RunEnd, PrepareFault>,
    pub(crate) instants: u128,
    pub(crate) peers: Vec<L>,
}

/// Runs the three FMUs from 0 to the stop by steps of 10, each with `inc` bound where a value is given, and closes them.
#[tactic(auto, using(crate::proofs::TrioSound::trio_counts))]
pub(crate) fn run_trio<R: Abort + Threads + Sync, S: Spawner>(
    rt: &R,
    alloc: Global,
    incs: [Option<i32>; 3],
    stop: u64,
    spawner: &mut S,
    out: &mut MemSink,
) -> Result<Ran<S::Link>, StartFault>
where
    S::Link: Drop,
    requires { stop ≤ 2 ^ 62 }
{
    let Ok(system) = make_trio(alloc) else {
        return Err(StartFault::Memory);
    };
    let Ok(bound) = make_bound(alloc, incs) else {
        return Err(StartFault::Memory);
    };
    let peers = start_trio(rt, alloc, spawner, &system)?;
    Ok(run_system(rt, alloc, system, bound, peers, stop, out))
}

/// Runs a system from 0 to the stop by steps of 10, and closes it.
pub(crate) fn run_system<R: Threads + Sync, L: Peer>(
    rt: &R,
    alloc: Global,
    system: System,
    bound: Bound,
    peers: Vec<L>,
    stop: u64,
    out: &mut MemSink,
) -> Ran<L>
    requires sound { IsSound system }
    requires counts { All (λ c. c.shape.resolution ≡ 1000) system.components }
    requires bound { BindsParameters system bound }
    requires peers { ArePeersOf system (map L.view peers.items) }
    requires stop { stop ≤ 2 ^ 62 }
{
    let plan = Plan {
        resolution: 1000,
        start: 0,
        step: 10,
        stop,
        limit: 2,
        workers: 1,
        link: 1,
    };
    match Master::prepare(alloc, system, bound, peers, plan) {
        Ok(mut master) => {
            let end = master.run(rt, out);
            Ran {
                end: Ok(end),
                instants: master.instants(),
                peers: master.close(),
            }
        }
        Err(PrepareEnd { peers, fault }) => Ran {
            end: Err(fault),
            instants: 0,
            peers,
        },
    }
}
