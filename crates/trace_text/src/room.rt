ghost use Rattle.std.specs.Prelude.{◌≡◌, ◌↔◌, ◌^◌, ◌<◌, IsSome, IfSome, length};
ghost use Rattle.system_model.specs.Text.{component_name};
ghost use Rattle.trace_text.specs.Room.{port_room, room_of, HoldsEach};

use sim_base::CompId;
use system_model::{Component, Port, System};

// The room for a line that has no name in it.
const FIRST_LINE_ROOM: usize = 128;

// The room for all of a port's line but its two names.
const FIELDS_ROOM: usize = 64;

// A byte of a name takes at most so many when it is escaped.
const MOST_ESCAPE_BYTES: usize = 3;

/// A number of bytes into which each text of a trace of the system fits: its header, every instant and the end.
/// There is none where a `usize` doesn't hold it.
pub fn room_for(system: &System) -> Option<usize>
    ensures found { IsSome result ↔ (room_of system.now < 2 ^ 64) }
    ensures room { IfSome result (λ room. room ≡ room_of system.now) }
    ensures holds { IfSome result (HoldsEach system.now) }
{
    let components = system.components.as_slice();
    let mut room = FIRST_LINE_ROOM;
    for port in system.ports.as_slice() {
        room = room.checked_add(port_room(components, port)?)?;
    }
    Some(room)
}

fn port_room(components: &[Component], port: &Port) -> Option<usize>
    ensures found { IsSome result ↔ (port_room components.now port.now < 2 ^ 64) }
    ensures room { IfSome result (λ room. room ≡ port_room components.now port.now) }
{
    let component_bytes = component_name_bytes(components, port.component);
    let name_bytes = component_bytes.checked_add(port.name.as_str().len())?;
    name_bytes
        .checked_mul(MOST_ESCAPE_BYTES)?
        .checked_add(FIELDS_ROOM)
}

// How many bytes a component's full name has; none where there is no such component.
fn component_name_bytes(components: &[Component], id: CompId) -> usize
    ensures { result ≡ length (component_name components.now id.0) }
{
    match components.get(id.0 as usize) {
        Some(component) => component.name.len(),
        None => 0,
    }
}
