//! The limits of a turn file.

/// Bytes of a file.
pub const LONGEST_FILE: usize = 60_000;
/// Levels of the stack of locks.
pub const MOST_LEVELS: u32 = 4;
/// Workers, and so parties of any level.
pub const MOST_WORKERS: u32 = 64;
/// A handoff limit, and each number of a script.
pub const LARGEST_SETTING: u32 = 65_535;
