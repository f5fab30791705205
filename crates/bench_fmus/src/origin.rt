ghost use Rattle.std.specs.Prelude.{◌≡◌, IfOk};

use sim_base::Text;
use std::alloc::{AllocError, Global};

/// What a peer was started with, beside its shape.
#[derive(Debug, Drop)]
pub struct Origin {
    pub host: Text,
    pub name: Text,
    pub directory: Text,
}

impl Origin {
    /// An origin of these texts.
    pub fn from_texts(
        alloc: Global,
        host: &str,
        name: &str,
        directory: &str,
    ) -> Result<Origin, AllocError>
        ensures { IfOk result
            (λ o. o ≡ record { host = host.now; name = name.now; directory = directory.now }) }
    {
        Ok(Origin {
            host: Text::from_str(alloc, host)?,
            name: Text::from_str(alloc, name)?,
            directory: Text::from_str(alloc, directory)?,
        })
    }
}
