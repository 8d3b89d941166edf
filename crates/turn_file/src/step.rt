//! Which record comes next in a file, and what is read of it.
ghost use Rattle.std.specs.Prelude.{◌≡◌, ◌+◌, ◌<◌, ◌≤◌, length, SomeIff};
ghost use Rattle.std.specs.List.{between};
ghost use Rattle.turn_file.specs.Reading.{after_level, after_script, seen_next};
ghost use Rattle.turn_file.specs.Reading.{levels_step, level_step, script_step, schedule_step, next_step};
ghost use Rattle.turn_file.specs.Scanning.{Steps};

use crate::fault::{FileFault, RecordFault};
use crate::field::Field;
use crate::record::{Part, Record};
use crate::scan::Scan;

/// Which record comes next. `parties` is the product of the fan-outs so far.
#[derive(Clone, Copy)]
pub(crate) enum Stage {
    Levels,
    Level { rank: u32, count: u32, parties: u32 },
    Script { worker: u32, workers: u32 },
    Schedule { workers: u32 },
    End,
}

/// A record that was read, the place after it, and which record comes next.
#[derive(Drop)]
pub(crate) struct Step<'a> {
    pub(crate) record: Record<'a>,
    pub(crate) next: usize,
    pub(crate) stage: Stage,
}

// The next number below `count`, if there is one.
fn following(number: u32, count: u32) -> Option<u32>
    ensures { SomeIff result (number + 1 < count) (number + 1) }
{
    number.checked_add(1).filter(|next| *next < count)
}

impl Stage {
    fn after_level(rank: u32, count: u32, parties: u32) -> Stage
        ensures { result ≡ after_level rank count parties }
    {
        match following(rank, count) {
            Some(rank) => Stage::Level {
                rank,
                count,
                parties,
            },
            None => Stage::Script {
                worker: 0,
                workers: parties,
            },
        }
    }

    fn after_script(worker: u32, workers: u32) -> Stage
        ensures { result ≡ after_script worker workers }
    {
        match following(worker, workers) {
            Some(worker) => Stage::Script { worker, workers },
            None => Stage::Schedule { workers },
        }
    }
}

impl<'a> Scan<'a> {
    // The part of the file from a place up to this one.
    fn part_from(&self, place: usize) -> Part<'a>
        requires { (place ≤ self.now.place) × (self.now.place ≤ length self.now.file.now) }
        ensures place { result.place ≡ place }
        ensures bytes { result.bytes.now ≡ between place self.now.place self.now.file.now }
    {
        Part {
            bytes: &self.file[place..self.place],
            place,
        }
    }

    fn step_levels(mut self) -> Result<Step<'a>, RecordFault>
        ensures { Steps levels_step self.entry result }
    {
        let place = self.place;
        let count = self.value(Field::LevelCount)?;
        Ok(Step {
            record: Record::Levels {
                part: self.part_from(place),
                count,
            },
            next: self.place,
            stage: Stage::Level {
                rank: 0,
                count,
                parties: 1,
            },
        })
    }

    fn step_level(mut self, rank: u32, count: u32, parties: u32) -> Result<Step<'a>, RecordFault>
        ensures { Steps (level_step rank count parties) self.entry result }
    {
        let place = self.place;
        let level = self.level(rank, parties)?;
        Ok(Step {
            record: Record::Level {
                part: self.part_from(place),
                rank,
                level,
            },
            next: self.place,
            stage: Stage::after_level(rank, count, parties * level.fan_out),
        })
    }

    fn step_script(mut self, worker: u32, workers: u32) -> Result<Step<'a>, RecordFault>
        ensures { Steps (script_step worker workers) self.entry result }
    {
        let place = self.place;
        let script = self.script()?;
        Ok(Step {
            record: Record::Script {
                part: self.part_from(place),
                worker,
                script,
            },
            next: self.place,
            stage: Stage::after_script(worker, workers),
        })
    }

    // The part of a schedule has only the entries.
    fn step_schedule(mut self, workers: u32) -> Result<Step<'a>, RecordFault>
        ensures { Steps (schedule_step workers) self.entry result }
    {
        let first = self.schedule(workers)?;
        Ok(Step {
            record: Record::Schedule {
                part: self.part_from(first),
            },
            next: self.place,
            stage: Stage::End,
        })
    }

    /// The next record, or none where the file ends as it should.
    pub(crate) fn step(self, stage: Stage) -> Result<Option<Step<'a>>, FileFault>
        ensures { seen_next result ≡ next_step self.entry.file.now self.entry.place stage }
    {
        let step = match stage {
            Stage::Levels => self.step_levels()?,
            Stage::Level {
                rank,
                count,
                parties,
            } => self.step_level(rank, count, parties)?,
            Stage::Script { worker, workers } => self.step_script(worker, workers)?,
            Stage::Schedule { workers } => self.step_schedule(workers)?,
            Stage::End if self.place < self.file.len() => {
                return Err(FileFault::TrailingByte { place: self.place });
            }
            Stage::End => return Ok(None),
        };
        Ok(Some(step))
    }
}
