ghost use Rattle.std.specs.Prelude.{refl};

use crate::edge_tests::Written;
use child_hosts::{PipeWire, SteadyRead};
use fmu_link::{Wire, WireFault};
use std::io::{self, Read};

// A reader of bytes in memory.
#[derive(Drop)]
struct Coming {
    bytes: &'static [u8],
}

impl Read for Coming {
    fn read(&mut self, into: &mut [u8]) -> io::Result<usize> {
        self.bytes.read(into)
    }
}

impl SteadyRead for Coming {
    ghost steady = { λ r s. refl };
}

fn is_sent(wire: &mut PipeWire<Coming, Written>) -> bool {
    wire.send(b"12") == Ok(()) && wire.send(b"345") == Ok(())
}

fn is_received(wire: &mut PipeWire<Coming, Written>) -> bool {
    let mut first = [0; 3];
    let mut second = [0; 3];
    wire.receive(&mut first) == Ok(())
        && wire.receive(&mut second) == Ok(())
        && first.as_slice() == b"abc".as_slice()
        && second.as_slice() == b"def".as_slice()
        && wire.receive(&mut first) == Err(WireFault::Ended)
        && wire.receive(&mut []) == Ok(())
}

fn has_kept(wire: &PipeWire<Coming, Written>) -> bool {
    wire.sink.stream.writer.bytes.as_slice() == b"12345".as_slice() && wire.faults == 0
}

#[test]
fn a_reader_and_a_writer_are_a_wire(rt: HostRuntime) {
    let written = Written {
        bytes: Vec::new(rt.alloc()),
    };
    let mut wire = PipeWire::new(Coming { bytes: b"abcdefg" }, written);
    assert!(rt; is_sent(&mut wire) && is_received(&mut wire) && has_kept(&wire));
}
