ghost use Rattle.std.specs.Prelude.{◌≡◌, ◌++◌, OnOk, OnErr, Err};
ghost use Rattle.trace_export.specs.declared.fault.ViewFault.TheVariants.{Write};
ghost use Rattle.trace_export.specs.Tables.{written};

use crate::fault::ViewFault;
use sim_base::Sink;
use std::alloc::Global;

const MOST_BYTES: usize = 65536;

/// What is written, kept back until there is enough of it.
#[derive(Drop)]
pub struct Output<S> {
    pub sink: S,
    pub bytes: Vec<u8>,
}

impl<S: Sink> Output<S> {
    /// Before anything is written.
    pub fn new(alloc: Global, sink: S) -> Output<S> {
        Output {
            sink,
            bytes: Vec::new(alloc),
        }
    }

    /// Writes what was kept back, where that is much.
    pub fn spill(&mut self) -> Result<(), ViewFault>
        ensures kept { OnOk result (written S.view self.new ≡ written S.view self.old) }
        ensures fault { OnErr result (result ≡ Err Write) }
    {
        if self.bytes.len() < MOST_BYTES {
            return Ok(());
        }
        self.flush()
    }

    /// Writes what was kept back.
    pub fn flush(&mut self) -> Result<(), ViewFault>
        ensures kept { OnOk result (written S.view self.new ≡ written S.view self.old) }
        ensures fault { OnErr result (result ≡ Err Write) }
    {
        let outcome = self.sink.put(&self.bytes);
        self.bytes.clear();
        match outcome {
            Ok(()) => Ok(()),
            Err(_) => Err(ViewFault::Write),
        }
    }
}
