//! The records that a reader hands out.
use crate::plan::{Level, Script};

/// A part of the file, and the place where it begins.
#[derive(Clone, Copy, Debug)]
pub struct Part<'a> {
    pub bytes: &'a [u8],
    pub place: usize,
}

/// A record with its part of the file. The part of the schedule holds only the entries, a byte each.
/// `rank` counts the levels above this one, and `worker` the workers before this one.
#[derive(Clone, Copy, Debug)]
pub enum Record<'a> {
    Levels {
        part: Part<'a>,
        count: u32,
    },
    Level {
        part: Part<'a>,
        rank: u32,
        level: Level,
    },
    Script {
        part: Part<'a>,
        worker: u32,
        script: Script,
    },
    Schedule {
        part: Part<'a>,
    },
}
