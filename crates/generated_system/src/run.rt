ghost use Rattle.std.specs.Prelude.{◌≡◌, None, IsOk};
ghost use Rattle.generated_system.specs.Generated.{bench_plan};
ghost use Rattle.sim_base.specs.Sink.{NotesPut};

use sim_base::{Sink, SinkFault};
use system_model::Plan;

/// The plan that a generated system is run by with so many workers: ten steps of ten counts, of which a second has 1000.
pub fn bench_plan(workers: u32) -> Plan
    ensures { result ≡ bench_plan workers }
{
    Plan {
        resolution: 1000,
        start: 0,
        step: 10,
        stop: 100,
        limit: 100,
        workers,
        link: 1,
    }
}

/// A sink that takes all bytes and keeps none, for a run whose trace isn't wanted. It tells nothing, and no put fails.
#[derive(Debug, Drop)]
pub struct EmptySink;

impl Sink for EmptySink {
    ghost view = { λ _. record { content = None; puts = None; faults = 0 } };

    ghost joined = { λ sink. tt };

    fn put(&mut self, bytes: &[u8]) -> Result<(), SinkFault>
        ensures noted { NotesPut (record { content = None; puts = None; faults = 0 })
            (record { content = None; puts = None; faults = 0 }) bytes.now result }
        ensures taken { IsOk result }
    {
        let _ = bytes;
        Ok(())
    }
}
