use system_checkpoint::Snapshot;
use system_files::{FileFault, Loaded, NamedFile};

/// What a run goes on from: the system that the files describe, and what was kept of its run.
#[derive(Debug, Drop)]
pub struct HeldRun {
    pub loaded: Loaded,
    pub held: Snapshot,
}

/// Why there is nothing to go on from.
#[derive(Debug, Drop)]
pub enum RestEnd {
    /// A file isn't taken: that of the checkpoint, or one of the system's.
    File { file: NamedFile, fault: FileFault },
    /// The file holds no checkpoint of the system. The byte at this place is the first that continues none, or it ends there.
    NoCheckpoint { file: NamedFile, at: u64 },
    /// Out of memory.
    Memory,
}
