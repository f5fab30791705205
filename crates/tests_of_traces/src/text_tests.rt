ghost use Rattle.std.specs.Prelude.{◌≡◌, ◌≤◌, ◌<◌, IfOk, length, vec_len};
ghost use Rattle.system_model.specs.Text.{end_text};
ghost use Rattle.trace_text.specs.Room.{AreValues, HoldsEach};

use port_values::PortValues;
use sim_base::{CompId, Items, PartedText, SourceId, Text};
use std::alloc::{AllocError, Global};
use system_model::{Component, EndKind, Port, Role, System};
use trace_text::{put_end, put_header, put_instant, room_for};
use value_types::{ByReference, PortType, Shape};

// A port by its name and type, with its value in the instant.
type Row = (&'static str, PortType, Option<i128>);

struct Case {
    component: &'static str,
    ports: &'static [Row],
    header: &'static str,
    instant: &'static str,
    kind: EndKind,
    end: &'static str,
}

static CASES: [Case; 4] = [
    Case {
        component: "c",
        ports: &[("y", PortType::Int32, Some(2))],
        header: "trace 1 1000 0 20\nport 0 Int32 c y\n",
        instant: "at 10 0\n0 2\n",
        kind: EndKind::Stop,
        end: "end stop 20\n",
    },
    Case {
        component: "left wheel",
        ports: &[
            ("50%\u{7f}", PortType::Boolean, None),
            ("speed", PortType::Int64, Some(-7)),
        ],
        header: "trace 1 1000 0 20\nport 0 Boolean left%20wheel 50%25%7F\nport 1 Int64 left%20wheel speed\n",
        instant: "at 10 0\n1 -7\n",
        kind: EndKind::Asked,
        end: "end asked 20\n",
    },
    Case {
        component: "whole",
        ports: &[("y", PortType::Enumeration, Some(1))],
        header: "trace 1 1000 0 20\nport 0 Enumeration whole y\n",
        instant: "at 10 0\n0 1\n",
        kind: EndKind::Fixed,
        end: "end fixed 20\n",
    },
    Case {
        component: "empty",
        ports: &[],
        header: "trace 1 1000 0 20\n",
        instant: "at 10 0\n",
        kind: EndKind::Fault,
        end: "end fault 20\n",
    },
];

// Whether the text of a case is put.
fn is_put(alloc: Global, case: &Case) -> Result<bool, AllocError> {
    let mut values = values_of(alloc, case.ports)?;
    let system = system_of(alloc, case.component, case.ports)?;
    let Some(room) = room_for(&system) else {
        return Ok(false);
    };
    let mut out = vec![in alloc; 0u8; room]?;
    let length = put_header(&system, 1000, 0, 20, &mut out);
    let is_header = &out[..length] == case.header.as_bytes();
    let length = put_instant(&system, 10, 0, &mut values, &mut out);
    let is_instant = &out[..length] == case.instant.as_bytes();
    let length = put_end_in(&system, case.kind, 20, &mut out);
    Ok(is_header && is_instant && &out[..length] == case.end.as_bytes())
}

fn is_put_as(alloc: Global, case: &Case) -> bool {
    match is_put(alloc, case) {
        Ok(is_put) => is_put,
        Err(_) => false,
    }
}

#[test]
fn texts_are_those_of_the_format(rt: HostRuntime) {
    let alloc = rt.alloc();
    assert_eq!(rt; CASES.iter().position(|case| !is_put_as(alloc, case)), None);
}

// Puts the end of a trace into the room of its system.
fn put_end_in(_system: &System, kind: EndKind, t: u64, out: &mut [u8]) -> usize
    requires { HoldsEach _system.now (length out.old) }
    ensures length { result ≡ length (end_text kind t) }
    ensures within { result ≤ length out.new }
{
    put_end(kind, t, out)
}

fn component(alloc: Global, name: &str) -> Result<Component, AllocError> {
    let name = PartedText::from_text(alloc, Text::from_str(alloc, name)?)?;
    Ok(Component {
        name,
        source: SourceId(0),
        shape: empty_shape(alloc)?,
    })
}

fn port(alloc: Global, name: &str, kind: PortType) -> Result<Port, AllocError> {
    Ok(Port {
        component: CompId(0),
        name: Text::from_str(alloc, name)?,
        kind,
        reference: 1,
        role: Role::Output,
        clocks: Items::from_vec(Vec::new(alloc)),
    })
}

fn ports_of(alloc: Global, rows: &[Row]) -> Result<Vec<Port>, AllocError>
    ensures { IfOk result (λ ports. vec_len ports ≡ length rows.now) }
{
    let mut ports = Vec::new(alloc);
    for (name, kind, _) in rows {
        ports.push(port(alloc, name, *kind)?)?;
    }
    Ok(ports)
}

fn system_of(alloc: Global, name: &str, rows: &[Row]) -> Result<System, AllocError>
    ensures { IfOk result (λ system. length system.ports ≡ length rows.now) }
{
    let ports = ports_of(alloc, rows)?;
    let components = vec![in alloc; component(alloc, name)?]?;
    Ok(System {
        components: Items::from_vec(components),
        ports: Items::from_vec(ports),
        instant_order: Items::from_vec(Vec::new(alloc)),
        initial_order: Items::from_vec(Vec::new(alloc)),
    })
}

fn values_of(alloc: Global, rows: &[Row]) -> Result<PortValues, AllocError>
    ensures fit { IfOk result AreValues }
    ensures each { IfOk result (λ values. length values ≡ length rows.now) }
{
    let mut values = PortValues::none(alloc, rows.len())?;
    for k in 0..rows.len() {
        put_value(&mut values, k, rows[k].2);
    }
    Ok(values)
}

// A value that is passed is known to be in the range of an `i128`.
fn put_value(values: &mut PortValues, k: usize, value: Option<i128>)
    requires place { k < length values.old }
    requires fit { AreValues values.old }
    ensures fit { AreValues values.new }
    ensures places { length values.new ≡ length values.old }
{
    values.put(k, value);
}

fn empty_shape(alloc: Global) -> Result<Shape, AllocError> {
    let identifier = Text::from_str(alloc, "model")?;
    let token = Text::from_str(alloc, "{1}")?;
    let variables = ByReference::new(alloc, Vec::new(alloc))?;
    let clocks = ByReference::new(alloc, Vec::new(alloc))?;
    let dependencies = ByReference::new(alloc, Vec::new(alloc))?;
    Ok(Shape {
        identifier,
        token,
        resolution: 1000,
        has_event_mode: false,
        might_return_early: false,
        has_variable_steps: false,
        can_save_state: false,
        can_serialize_state: false,
        variables,
        clocks,
        dependencies,
        initial_dependencies: ByReference::new(alloc, Vec::new(alloc))?,
    })
}
