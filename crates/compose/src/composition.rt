//! The plan that a text describes.
ghost use Rattle.std.specs.Prelude.{◌≡◌};

use crate::failure::Failure;
use crate::lines::Lines;
use crate::records::{Numbered, read_entries};
use crate::unreadable::Unreadable;
use std::alloc::Global;
use turn_file::limits::{MOST_LEVELS, MOST_WORKERS};
use turn_file::plan::Plan;

/// The plan's levels and scripts, and the entries of its schedule.
#[derive(Drop)]
pub(crate) struct Composition {
    tables: Plan<'static>,
    entries: Vec<u8>,
}

impl Composition {
    pub(crate) fn read(heap: Global, text: &[u8]) -> Result<Composition, Failure> {
        let mut composition = Composition {
            tables: Plan::blank(),
            entries: Vec::new(heap),
        };
        composition.fill(&mut Lines::new(text))?;
        Ok(composition)
    }

    pub(crate) fn plan(&self) -> Plan<'_>
        ensures tables { let tables = self.now.tables in
            (result.level_count ≡ tables.level_count) × (result.levels ≡ tables.levels)
            × (result.scripts ≡ tables.scripts) }
        ensures entries { result.schedule.now ≡ self.now.entries.items }
    {
        Plan {
            schedule: &self.entries,
            ..self.tables
        }
    }

    // Enters the records of a text. Where the levels or the workers are too many or none,
    // the plan is refused whatever follows, and the rest of the text is not read.
    fn fill(&mut self, lines: &mut Lines<'_>) -> Result<(), Failure> {
        let mut first = lines.next_or_empty();
        let level_count = first.expect_setting("levels")?;
        self.tables.level_count = level_count;
        if !(1..=MOST_LEVELS).contains(&level_count) {
            return Ok(());
        }
        first.expect_end()?;
        let levels = &mut self.tables.levels[..level_count as usize];
        read_each(lines, levels, 1)?;
        let workers = self.tables.workers();
        if !(1..=MOST_WORKERS).contains(&workers) {
            return Ok(());
        }
        let scripts = &mut self.tables.scripts[..workers as usize];
        read_each(lines, scripts, 0)?;
        self.read_schedule(lines)
    }

    // The schedule has at least one line, and goes on to the end of the text.
    fn read_schedule(&mut self, lines: &mut Lines<'_>) -> Result<(), Failure> {
        read_entries(lines.next_or_empty(), &mut self.entries)?;
        for line in lines {
            read_entries(line, &mut self.entries)?;
        }
        Ok(())
    }
}

// Reads a line for each place of a table; the lines are numbered from `first` on.
fn read_each<T: Numbered + Drop>(
    lines: &mut Lines<'_>,
    table: &mut [T],
    first: u32,
) -> Result<(), Unreadable> {
    for (place, number) in table.iter_mut().zip(first..) {
        *place = T::read(lines.next_or_empty(), number)?;
    }
    Ok(())
}
