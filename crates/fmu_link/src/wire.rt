use thiserror::Error;

/// Why a wire didn't do what it was asked.
#[derive(Clone, Copy, Debug, Drop, Error, PartialEq, Eq)]
pub enum WireFault {
    #[error("the wire failed")]
    Failed,
    /// Nothing more comes.
    #[error("the wire ended")]
    Ended,
}

/// A channel on which bytes are sent, and others received, each in their order.
pub trait Wire {
    ghost use Rattle.fmu_link.specs.Wire.{WireView, NotesSend, NotesReceive};

    /// What it tells: the bytes that were sent and those that are still to come, if it tells them, and how often it has
    /// failed.
    ghost view: { Self → WireView };

    /// Sends all of the bytes, or after a fault a prefix of them. It doesn't answer `Ended`, and allocates no memory.
    fn send(&mut self, bytes: &[u8]) -> Result<(), WireFault>
        ensures noted { NotesSend (view self.old) (view self.new) bytes.now result };

    /// Fills all of `into` with the first of the bytes to come, or answers `Ended` where there are fewer. It allocates no
    /// memory.
    fn receive(&mut self, into: &mut [u8]) -> Result<(), WireFault>
        ensures noted { NotesReceive (view self.old) (view self.new) into.new result };
}
