//! Reads a whole turn file into a plan.
ghost use Rattle.std.specs.Prelude.{◌≡◌, length};
ghost use Rattle.turn_file.specs.Order.{ReadWhole};
ghost use Rattle.turn_file.specs.Plan.{plan_numbers, put, with_record, plan_of, judgement, filled};

use crate::fault::FileFault;
use crate::plan::Plan;
use crate::reader::Reader;
use crate::record::Record;

impl<'a> Plan<'a> {
    // Enters what a record says.
    fn enter(&mut self, record: Record<'a>)
        ensures { plan_numbers self.new ≡ with_record self.old «record».entry }
    {
        match record {
            Record::Levels { count, .. } => self.level_count = count,
            Record::Level { rank, level, .. } => put(&mut self.levels, rank as usize, level),
            Record::Script { worker, script, .. } => put(
                &mut self.scripts,
                worker as usize,
                script,
            ),
            Record::Schedule { part } => self.schedule = part.bytes,
        }
    }
}

// Puts a value at its place in a table that has the place.
fn put<T: Copy>(table: &mut [T], place: usize, value: T)
    ensures { table.new ≡ put (length table.old) table.old place value }
{
    if place < table.len() {
        table[place] = value;
    }
}

/// Reads the file into `plan`, the unused part of its tables blank. A refusal leaves the plan as it was.
pub fn read_plan<'a>(file: &'a [u8], plan: &mut Plan<'a>) -> Result<(), FileFault>
    ensures answer { result ≡ judgement (plan_of file.now) }
    ensures plan { plan_numbers plan.new ≡ filled plan.old (plan_of file.now) }
    ensures law { ReadWhole file.now result (plan_numbers plan.new) }
{
    let mut reader = Reader::new(file)?;
    let mut read = Plan::blank();
    while let Some(record) = reader.next_record()? {
        read.enter(record);
    }
    *plan = read;
    Ok(())
}
