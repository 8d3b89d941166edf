//! Writes a whole plan.
ghost use Rattle.std.specs.Prelude.{◌≡◌, length};
ghost use Rattle.turn_file.specs.Plan.{plan_numbers};
ghost use Rattle.turn_writer.specs.Judgement.{file_length};
ghost use Rattle.turn_writer.specs.Writing.{written_length, output_after, Writes, Measures};

use crate::judge::past_plan;
use crate::pen::Pen;
use crate::record_writer::write_records;
use turn_file::fault::FileFault;
use turn_file::plan::Plan;

/// How long the plan's file is, or why the plan cannot be written, whatever space there is.
pub fn file_length(plan: &Plan<'_>) -> Result<usize, FileFault>
    ensures answer { result ≡ file_length (plan_numbers plan.now) }
    ensures law { Measures (plan_numbers plan.now) result }
{
    past_plan(plan)
}

/// Writes the plan into the front of `out`; the answer is the length of the file.
/// A refusal leaves the output as it was.
pub fn write_plan(plan: &Plan<'_>, out: &mut [u8]) -> Result<usize, FileFault>
    ensures answer { result ≡ written_length (plan_numbers plan.now) (length out.old) }
    ensures output { out.new ≡ output_after out.old (plan_numbers plan.now) result }
    ensures law { Writes (plan_numbers plan.now) (length out.old) result }
{
    let length = past_plan(plan)?;
    if length > out.len() {
        return Err(FileFault::OutputTooShort);
    }
    let mut pen = Pen::new(out);
    write_records(&mut pen, plan);
    Ok(length)
}
