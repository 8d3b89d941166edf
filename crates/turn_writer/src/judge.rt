//! Judges a plan number by number, in the order of a file. A number is judged where it would stand:
//! each answer is the place after what was judged, or a fault with the place of the number.
//! `at` is below 2^16 before the schedule, 2^20 before all levels, scripts or entries, 2^31 before one record,
//! and 2^32 before one number.
ghost use Rattle.std.specs.Prelude.{◌≡◌, ◌^◌, ◌<◌, ◌≤◌, length};
ghost use Rattle.std.specs.List.{AllByRecursion};
ghost use Rattle.turn_file.specs.Fault.{longest_file};
ghost use Rattle.turn_file.specs.Plan.{plan_numbers};
ghost use Rattle.turn_file.specs.Spelling.{spell};
ghost use Rattle.turn_writer.specs.Judgement.{past, past_field, past_level, past_levels, past_script};
ghost use Rattle.turn_writer.specs.Judgement.{past_scripts, past_entries, within_file, past_entry_count};
ghost use Rattle.turn_writer.specs.Judgement.{past_schedule, past_header, file_length};
ghost use Rattle.turn_writer.specs.Shape.{Word, Shape, Known};

use turn_file::fault::{FileFault, RecordFault};
use turn_file::field::Field;
use turn_file::limits::LONGEST_FILE;
use turn_file::plan::{Level, Plan, Script};

// How many bytes a number takes.
fn number_size(value: u32) -> usize
    ensures { result ≡ length (spell value) }
{
    match value {
        0..=0x7f => 1,
        0x80..=0x3fff => 2,
        0x4000..=0x1f_ffff => 3,
        0x20_0000..=0xfff_ffff => 4,
        _ => 5,
    }
}

// The place after a number at `at`.
fn past(at: usize, value: u32) -> usize
    requires { at < 2 ^ 32 }
    ensures { result ≡ past value at }
{
    at + number_size(value)
}

// The place after a number whose value fits.
fn past_field(at: usize, field: Field, value: u32) -> Result<usize, RecordFault>
    requires { at < 2 ^ 32 }
    ensures { result ≡ past_field field value at }
{
    field.judge(value, at)?;
    Ok(past(at, value))
}

// A level with `rank` levels above it, which have `parties` parties. The top level has no handoff limit.
fn past_level(at: usize, rank: usize, parties: u32, level: &Level) -> Result<usize, RecordFault>
    requires { at < 2 ^ 31 }
    ensures { result ≡ past_level rank parties level.now at }
{
    let at_fan_out = past(at, u32::from(level.algorithm));
    let at_limit = past_field(at_fan_out, Field::FanOut { parties }, level.fan_out)?;
    if rank == 0 {
        return Ok(at_limit);
    }
    past_field(at_limit, Field::HandoffLimit, level.handoff_limit)
}

// Levels, the top level first. `parties` is the product of the fan-outs so far.
fn past_levels(at: usize, levels: &[Level]) -> Result<usize, RecordFault>
    requires { (at < 2 ^ 20) × (length levels.now ≤ 4) }
    ensures { result ≡ past_levels 0 1 levels.now at }
{
    let mut next = at;
    let mut parties = 1;
    for (rank, level) in levels.iter().enumerate() {
        next = past_level(next, rank, parties, level)?;
        parties *= level.fan_out;
    }
    Ok(next)
}

fn past_script(at: usize, script: &Script) -> Result<usize, RecordFault>
    requires { at < 2 ^ 31 }
    ensures { result ≡ past_script script.now at }
{
    let at_rest = past_field(at, Field::ScriptNumber, script.turns)?;
    let at_hold = past_field(at_rest, Field::ScriptNumber, script.rest)?;
    past_field(at_hold, Field::ScriptNumber, script.hold)
}

fn past_scripts(at: usize, scripts: &[Script]) -> Result<usize, RecordFault>
    requires { (at < 2 ^ 20) × (length scripts.now ≤ 64) }
    ensures { result ≡ past_scripts scripts.now at }
{
    scripts.iter().try_fold(at, past_script)
}

// Each entry is a worker.
fn past_entries(at: usize, workers: u32, entries: &[u8]) -> Result<usize, RecordFault>
    requires { (at < 2 ^ 20) × (length entries.now ≤ longest_file) }
    ensures { result ≡ past_entries workers entries.now at }
{
    let field = Field::Entry { workers };
    entries.iter().try_fold(at, |next, entry| past_field(next, field, u32::from(*entry)))
}

// The length, where a file may have it.
fn within_file(length: usize) -> Result<usize, FileFault>
    ensures { result ≡ within_file length }
{
    if length > LONGEST_FILE {
        return Err(FileFault::TooLong);
    }
    Ok(length)
}

// The count of entries is judged before them. A caller also learns that each entry is a number of 32 bits.
fn past_entry_count(at: usize, entries: &[u8]) -> Result<usize, FileFault>
    requires { at < 2 ^ 16 }
    ensures end { result ≡ past_entry_count entries.now at }
    ensures words { AllByRecursion Word entries.now }
{
    let count = within_file(entries.len())?;
    Ok(past(at, count as u32))
}

// The length of the file is judged after all values.
fn past_schedule(at: usize, workers: u32, entries: &[u8]) -> Result<usize, FileFault>
    requires { at < 2 ^ 16 }
    ensures end { result ≡ past_schedule workers entries.now at }
    ensures words { AllByRecursion Word entries.now }
{
    let first = past_entry_count(at, entries)?;
    within_file(past_entries(first, workers, entries)?)
}

// The count of levels. A caller also learns what the type of a plan says of its values.
fn past_level_count(plan: &Plan<'_>) -> Result<usize, RecordFault>
    ensures end { result ≡ past_field Field.LevelCount (plan_numbers plan.now).count 0 }
    ensures shape { Shape (plan_numbers plan.now) }
{
    past_field(0, Field::LevelCount, plan.level_count)
}

// All that stands before the count of entries.
fn past_header(plan: &Plan<'_>) -> Result<usize, RecordFault>
    ensures end { result ≡ past_header (plan_numbers plan.now) }
    ensures shape { Shape (plan_numbers plan.now) }
{
    let at_levels = past_level_count(plan)?;
    let at_scripts = past_levels(at_levels, plan.used_levels())?;
    past_scripts(at_scripts, plan.used_scripts())
}

/// How long the plan's file is, or why the plan cannot be written.
pub(crate) fn past_plan(plan: &Plan<'_>) -> Result<usize, FileFault>
    ensures end { result ≡ file_length (plan_numbers plan.now) }
    ensures known { Known (plan_numbers plan.now) }
{
    let at_count = past_header(plan)?;
    past_schedule(at_count, plan.workers(), plan.schedule)
}
