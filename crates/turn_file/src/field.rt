//! The numbers of records that only some values fit.
ghost use Rattle.std.specs.Prelude.{◌≡◌};
ghost use Rattle.turn_file.specs.Field.{field_kind, field_refuses, field_fault, field_judgement};

use crate::fault::{RecordFault, RecordKind};
use crate::limits::{LARGEST_SETTING, MOST_LEVELS, MOST_WORKERS};

/// A number of a record, with what its values are judged by.
#[derive(Clone, Copy, PartialEq, Eq, Debug)]
pub enum Field {
    LevelCount,
    /// The members of each lane, where the levels above have `parties` parties.
    FanOut { parties: u32 },
    HandoffLimit,
    /// Turns, rest or hold.
    ScriptNumber,
    /// An entry of the schedule, a worker.
    Entry { workers: u32 },
}

impl Field {
    pub(crate) fn kind(self) -> RecordKind
        ensures { result ≡ field_kind self }
    {
        match self {
            Field::LevelCount => RecordKind::Levels,
            Field::FanOut { .. } | Field::HandoffLimit => RecordKind::Level,
            Field::ScriptNumber => RecordKind::Script,
            Field::Entry { .. } => RecordKind::Schedule,
        }
    }

    fn refuses(self, value: u32) -> bool
        ensures { result ≡ field_refuses self value }
    {
        match self {
            Field::LevelCount => !(1..=MOST_LEVELS).contains(&value),
            Field::FanOut { parties } => {
                value < 1 || u64::from(parties) * u64::from(value) > u64::from(MOST_WORKERS)
            }
            Field::HandoffLimit => !(1..=LARGEST_SETTING).contains(&value),
            Field::ScriptNumber => value > LARGEST_SETTING,
            Field::Entry { workers } => value >= workers,
        }
    }

    fn fault(self, place: usize) -> RecordFault
        ensures { result ≡ field_fault self place }
    {
        match self {
            Field::LevelCount => RecordFault::LevelCount { place },
            Field::FanOut { .. } => RecordFault::FanOut { place },
            Field::HandoffLimit => RecordFault::HandoffLimit { place },
            Field::ScriptNumber => RecordFault::ScriptNumber { place },
            Field::Entry { .. } => RecordFault::Entry { place },
        }
    }

    /// Whether a value fits, whose first byte is at `place`.
    pub fn judge(self, value: u32, place: usize) -> Result<(), RecordFault>
        ensures { result ≡ field_judgement self value place }
    {
        if self.refuses(value) {
            Err(self.fault(place))
        } else {
            Ok(())
        }
    }
}
