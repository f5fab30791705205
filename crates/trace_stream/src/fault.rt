use std::alloc::{AllocError, AllocFailed};
use thiserror::Error;

/// Why a trace isn't read on.
#[derive(Clone, Copy, Debug, Error, PartialEq, Eq)]
pub enum StreamFault {
    /// The line of this number, from 1 on, is the first that is out of form or missing. Past 64 bits it is their last number.
    #[error("line {0} is out of form")]
    Line(u64),
    /// A read failed.
    #[error("the read failed")]
    Read,
    /// Memory ran out.
    #[error("out of memory")]
    Memory,
}

impl From<AllocError> for StreamFault {
    ghost use Rattle.std.specs.Prelude.{◌≡◌};
    ghost use Rattle.trace_stream.specs.declared.fault.StreamFault.TheVariants.{Memory};

    ghost from_gives = { λ _ fault. fault ≡ Memory };

    fn from(_: AllocError) -> StreamFault {
        StreamFault::Memory
    }
}

impl<T: Drop> From<AllocFailed<T>> for StreamFault {
    ghost use Rattle.std.specs.Prelude.{◌≡◌};
    ghost use Rattle.trace_stream.specs.declared.fault.StreamFault.TheVariants.{Memory};

    ghost from_gives = { λ _ fault. fault ≡ Memory };

    fn from(_: AllocFailed<T>) -> StreamFault {
        StreamFault::Memory
    }
}
