/// The greatest resolution, step, start and stop, in counts.
pub const MOST_COUNTS: u64 = 1 << 62;

/// The greatest length of a file, in bytes (16 MiB).
pub const MOST_FILE_BYTES: u64 = 1 << 24;

/// The greatest length of an instance's name or token, in bytes.
pub const MOST_NAME_BYTES: usize = 1 << 24;

/// The most instants that a plan can allow at one point.
pub const MOST_INSTANTS: u64 = 10_000;
