use std::alloc::{AllocError, AllocFailed};
use thiserror::Error;
use trace_stream::StreamFault;

/// Why a trace isn't shown.
#[derive(Clone, Copy, Debug, Drop, Error, PartialEq, Eq)]
pub enum ViewFault {
    /// The line of this number of the trace, from 1 on, is the first that is out of form.
    #[error("line {0}")]
    Line(u64),
    /// The line of this number of the list of reals is out of form.
    #[error("list {0}")]
    List(u64),
    /// A time is past what a file of waves holds.
    #[error("scale")]
    Scale,
    /// No port has the name that is the n-th of those asked for, from 0 on.
    #[error("port {0}")]
    Port(usize),
    /// A read failed.
    #[error("read")]
    Read,
    /// A write failed.
    #[error("write")]
    Write,
    /// Memory ran out.
    #[error("memory")]
    Memory,
}

impl From<AllocError> for ViewFault {
    ghost use Rattle.std.specs.Prelude.{◌≡◌};
    ghost use Rattle.trace_export.specs.declared.fault.ViewFault.TheVariants.{Memory};

    ghost from_gives = { λ _ fault. fault ≡ Memory };

    fn from(_: AllocError) -> ViewFault {
        ViewFault::Memory
    }
}

impl<T: Drop> From<AllocFailed<T>> for ViewFault {
    ghost use Rattle.std.specs.Prelude.{◌≡◌};
    ghost use Rattle.trace_export.specs.declared.fault.ViewFault.TheVariants.{Memory};

    ghost from_gives = { λ _ fault. fault ≡ Memory };

    fn from(_: AllocFailed<T>) -> ViewFault {
        ViewFault::Memory
    }
}

impl From<StreamFault> for ViewFault {
    ghost use Rattle.std.specs.Prelude.{◌≡◌};
    ghost use Rattle.trace_export.specs.Faults.{told_fault};

    ghost from_gives = { λ fault result. result ≡ told_fault fault };

    fn from(fault: StreamFault) -> ViewFault {
        match fault {
            StreamFault::Line(number) => ViewFault::Line(number),
            StreamFault::Read => ViewFault::Read,
            StreamFault::Memory => ViewFault::Memory,
        }
    }
}

/// Why two traces aren't compared.
#[derive(Clone, Copy, Debug, PartialEq, Eq)]
pub enum CompareFault {
    /// The first isn't read.
    First(ViewFault),
    /// The second isn't read.
    Second(ViewFault),
    /// The answer isn't written.
    Shown(ViewFault),
}

impl From<AllocError> for CompareFault {
    fn from(_: AllocError) -> CompareFault {
        CompareFault::Shown(ViewFault::Memory)
    }
}
