use std::alloc::AllocError;
use thiserror::Error;

/// Why arguments ask for nothing.
#[derive(Clone, Copy, Debug, Drop, Error, PartialEq, Eq)]
pub enum WordsFault {
    #[error("the words are no command line")]
    NoLine,
    #[error("no memory is left")]
    Memory,
}

impl From<AllocError> for WordsFault {
    ghost use Rattle.std.specs.Prelude.{◌≡◌};
    ghost use Rattle.command_line.specs.declared.fault.WordsFault.TheVariants.{Memory};

    ghost from_gives = { λ _ e. e ≡ Memory };

    fn from(_error: AllocError) -> WordsFault {
        WordsFault::Memory
    }
}
