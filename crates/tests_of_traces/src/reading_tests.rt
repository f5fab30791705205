use std::alloc::Global;
use std::test::Fail;
use system_model::EndKind;
use trace_reading::{Trace, TraceFault, TraceLine, TracePort, read_trace};
use value_types::PortType;

// Two samplers, the first of which feeds the second.
const SAMPLERS: &str = "trace 1 1000 0 20
port 0 Clock a c
port 1 Int32 a u
port 2 Int32 a y
port 3 Clock b c
port 4 Int32 b u
port 5 Int32 b%20b y
at 0 0
0 0
3 1
5 0
at 10 0
0 1
2 -7
3 1
4 7
5 7
end stop 20
";

fn is_last_port(port: Option<&TracePort>) -> bool {
    match port {
        Some(port) => {
            port.kind == PortType::Int32
                && port.component.as_slice() == b"b b".as_slice()
                && port.variable.as_slice() == b"y".as_slice()
        }
        None => false,
    }
}

fn has_lines(lines: &[TraceLine]) -> bool {
    lines.len() == 10
        && lines.get(4) == Some(&TraceLine::At { t: 10, n: 0 })
        && lines.get(6) == Some(&TraceLine::Value { port: 2, value: -7 })
}

fn is_trace_of_samplers(trace: &Trace) -> bool {
    trace.resolution == 1000
        && trace.start == 0
        && trace.stop == 20
        && trace.kind == EndKind::Stop
        && trace.point == 20
        && trace.ports.len() == 6
        && is_last_port(trace.ports.get(5))
        && has_lines(trace.lines.as_slice())
}

#[test]
fn a_text_gives_its_trace(rt: HostRuntime) -> Result<(), Fail> {
    let trace = read_trace(rt.alloc(), SAMPLERS.as_bytes())?;
    assert!(rt; is_trace_of_samplers(&trace));
    Ok(())
}

// Whether this is the number of the first line out of form; 0 where the text is that of a trace.
fn is_line(alloc: Global, header: &str, row: &(&str, u64)) -> bool {
    let Ok(whole) = format!(in alloc; "{header}{}", row.0) else {
        return false;
    };
    match read_trace(alloc, whole.as_bytes()) {
        Ok(_) => row.1 == 0,
        Err(TraceFault::Line(n)) => row.1 == n,
        Err(TraceFault::Memory) => false,
    }
}

static HEADERS: [(&str, u64); 10] = [
    ("trace 1 1000 0 20\nend fault 0\n", 0),
    ("", 1),
    ("trace 1 1000 0 20", 1),
    ("trace 2 1000 0 20\nend fault 0\n", 1),
    ("trace 1 0 0 20\nend fault 0\n", 1),
    ("trace 1 1000 30 20\nend fault 0\n", 1),
    ("trace 1 1000 0 4611686018427387905\nend fault 0\n", 1),
    ("trace 1 1000 0 020\nend fault 0\n", 1),
    ("trace 1 1000 0 20 \nend fault 0\n", 1),
    ("trace 1 1000 0 20\n", 2),
];

static PORTS: [(&str, u64); 9] = [
    ("port 0 Int32 c%20d y\nend fault 0\n", 0),
    ("port 1 Int32 c y\nend fault 0\n", 2),
    ("port 00 Int32 c y\nend fault 0\n", 2),
    ("port 0 Int c y\nend fault 0\n", 2),
    ("port 0 Int32 c\nend fault 0\n", 2),
    ("port 0 Int32 c y z\nend fault 0\n", 2),
    ("port 0 Int32 c%7f y\nend fault 0\n", 2),
    ("port 0 Int32 c%41 y\nend fault 0\n", 2),
    ("port 0 Int32  y\nend fault 0\n", 2),
];

// After a port of type Int32 and a Clock.
static ROWS: [(&str, u64); 10] = [
    ("at 0 0\n0 -5\n1 1\nend stop 20\n", 0),
    ("at 0 0\n1 0\nat 0 1\n1 0\nend limit 0\n", 0),
    ("at 0 0\n1 0\n", 6),
    ("at 0 0\n1 0\nend stop 20", 6),
    ("at 0 0\nend stop 20\n", 5),
    ("at 0 0\n0 -0\n1 0\nend stop 20\n", 5),
    ("at 0 0\n0 2147483648\n1 0\nend stop 20\n", 5),
    ("at 0 0\n1 2\nend stop 20\n", 5),
    ("at 0 0\n1 0\n0 0\nend stop 20\n", 6),
    ("at 0 0\n1 0\n2 0\nend stop 20\n", 6),
];

static MORE_ROWS: [(&str, u64); 9] = [
    ("0 1\nend stop 20\n", 4),
    ("at 0 10000\n1 0\nend stop 20\n", 4),
    ("at 00 0\n1 0\nend stop 20\n", 4),
    ("at 0  0\n1 0\nend stop 20\n", 4),
    ("at 4611686018427387905 0\n", 4),
    ("at 0 0\n1 0\r\nend stop 20\n", 5),
    ("at 0 0\n1 0\nend over 20\n", 6),
    ("at 0 0\n1 0\nend stop 20\n\n", 7),
    ("at 0 0\n1 0\nend stop 20\nx", 7),
];

fn first_wrong(alloc: Global, header: &str, rows: &[(&str, u64)]) -> Option<usize> {
    rows.iter().position(|row| !is_line(alloc, header, row))
}

#[test]
fn the_first_line_out_of_form_is_told(rt: HostRuntime) {
    let alloc = rt.alloc();
    let ports = "trace 1 1000 0 20\nport 0 Int32 c y\nport 1 Clock c c\n";
    assert_eq!(rt; first_wrong(alloc, "", &HEADERS), None);
    assert_eq!(rt; first_wrong(alloc, "trace 1 1000 0 20\n", &PORTS), None);
    assert_eq!(rt; first_wrong(alloc, ports, &ROWS), None);
    assert_eq!(rt; first_wrong(alloc, ports, &MORE_ROWS), None);
}
