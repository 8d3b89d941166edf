//! Reads the records of a file, each a row of numbers. A number is judged as a number, then by its value,
//! before the next is read.
ghost use Rattle.turn_file.specs.Record.{number_in, value_at, algorithm_at, limit_at, level_at};
ghost use Rattle.turn_file.specs.Record.{script_at, entries_end, schedule_at};
ghost use Rattle.turn_file.specs.Scanning.{Reads, Passes};

use crate::fault::{RecordFault, RecordKind};
use crate::field::Field;
use crate::number::read_number;
use crate::plan::{Algorithm, Level, Script};

/// A file, and the place that is read next.
#[derive(Clone, Copy)]
pub(crate) struct Scan<'a> {
    pub(crate) file: &'a [u8],
    pub(crate) place: usize,
}

impl Scan<'_> {
    // A number of a record of this kind.
    fn number(&mut self, kind: RecordKind) -> Result<u32, RecordFault>
        ensures { Reads (number_in kind) self.old result self.new }
    {
        let (value, next) = read_number(self.file, self.place).map_err(|fault| (kind, fault))?;
        self.place = next;
        Ok(value)
    }

    /// A number that only some values fit.
    pub(crate) fn value(&mut self, field: Field) -> Result<u32, RecordFault>
        ensures { Reads (value_at field) self.old result self.new }
    {
        let place = self.place;
        let value = self.number(field.kind())?;
        field.judge(value, place)?;
        Ok(value)
    }

    fn algorithm(&mut self) -> Result<Algorithm, RecordFault>
        ensures { Reads algorithm_at self.old result self.new }
    {
        let place = self.place;
        let number = self.number(RecordKind::Level)?;
        Algorithm::try_from(number).map_err(|_| RecordFault::Algorithm { place })
    }

    // The handoff limit of a level with `rank` levels above it: the top level has none.
    fn handoff_limit(&mut self, rank: u32) -> Result<u32, RecordFault>
        ensures { Reads (limit_at rank) self.old result self.new }
    {
        if rank == 0 {
            Ok(0)
        } else {
            self.value(Field::HandoffLimit)
        }
    }

    /// A level with `rank` levels above it, which have `parties` parties.
    pub(crate) fn level(&mut self, rank: u32, parties: u32) -> Result<Level, RecordFault>
        ensures { Reads (level_at rank parties) self.old result self.new }
    {
        Ok(Level {
            algorithm: self.algorithm()?,
            fan_out: self.value(Field::FanOut { parties })?,
            handoff_limit: self.handoff_limit(rank)?,
        })
    }

    pub(crate) fn script(&mut self) -> Result<Script, RecordFault>
        ensures { Reads script_at self.old result self.new }
    {
        Ok(Script {
            turns: self.value(Field::ScriptNumber)?,
            rest: self.value(Field::ScriptNumber)?,
            hold: self.value(Field::ScriptNumber)?,
        })
    }

    // Passes `count` entries.
    fn entries(&mut self, count: u32, workers: u32) -> Result<(), RecordFault>
        ensures { Passes (entries_end count workers) self.old result self.new }
    {
        for _ in 0..count {
            self.value(Field::Entry { workers })?;
        }
        Ok(())
    }

    /// The place of the first entry.
    pub(crate) fn schedule(&mut self, workers: u32) -> Result<usize, RecordFault>
        ensures { Reads (schedule_at workers) self.old result self.new }
    {
        let count = self.number(RecordKind::Schedule)?;
        let first = self.place;
        self.entries(count, workers)?;
        Ok(first)
    }
}
