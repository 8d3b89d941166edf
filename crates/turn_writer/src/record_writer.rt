//! Writes the records of a plan.
ghost use Rattle.turn_file.specs.Plan.{plan_numbers};
ghost use Rattle.turn_writer.specs.Page.{HasRoom, Wrote};
ghost use Rattle.turn_writer.specs.Records.{level_spelling, script_spelling, levels_spelling, scripts_spelling};
ghost use Rattle.turn_writer.specs.Records.{header_spelling, schedule_spelling, plan_spelling, IsPlain};

use crate::pen::Pen;
use turn_file::plan::{Level, Plan, Script};

// A level with `rank` levels above it. The top level has no handoff limit.
fn write_level(pen: &mut Pen<'_>, rank: usize, level: &Level)
    requires { HasRoom (level_spelling rank level.now) pen.old }
    ensures { Wrote (level_spelling rank level.now) pen.old pen.new }
{
    pen.write_number(u32::from(level.algorithm));
    pen.write_number(level.fan_out);
    if rank > 0 {
        pen.write_number(level.handoff_limit);
    }
}

// Turns, rest and hold.
fn write_script(pen: &mut Pen<'_>, script: &Script)
    requires { HasRoom (script_spelling script.now) pen.old }
    ensures { Wrote (script_spelling script.now) pen.old pen.new }
{
    pen.write_number(script.turns);
    pen.write_number(script.rest);
    pen.write_number(script.hold);
}

// Levels, the top level first.
fn write_levels(pen: &mut Pen<'_>, levels: &[Level])
    requires { HasRoom (levels_spelling 0 levels.now) pen.old }
    ensures { Wrote (levels_spelling 0 levels.now) pen.old pen.new }
{
    for (rank, level) in levels.iter().enumerate() {
        write_level(pen, rank, level);
    }
}

fn write_scripts(pen: &mut Pen<'_>, scripts: &[Script])
    requires { HasRoom (scripts_spelling 0 scripts.now) pen.old }
    ensures { Wrote (scripts_spelling 0 scripts.now) pen.old pen.new }
{
    for script in scripts {
        write_script(pen, script);
    }
}

// All that stands before the count of entries.
fn write_header(pen: &mut Pen<'_>, plan: &Plan<'_>)
    requires { HasRoom (header_spelling (plan_numbers plan.now)) pen.old }
    ensures { Wrote (header_spelling (plan_numbers plan.now)) pen.old pen.new }
{
    pen.write_number(plan.level_count);
    write_levels(pen, plan.used_levels());
    write_scripts(pen, plan.used_scripts());
}

// Entries are copied, since each is its own spelling.
fn write_schedule(pen: &mut Pen<'_>, entries: &[u8])
    requires plain { IsPlain entries.now }
    requires room { HasRoom (schedule_spelling entries.now) pen.old }
    ensures { Wrote (schedule_spelling entries.now) pen.old pen.new }
{
    pen.write_number(entries.len() as u32);
    pen.write_bytes(entries);
}

/// All records of a plan.
pub(crate) fn write_records(pen: &mut Pen<'_>, plan: &Plan<'_>)
    requires plain { IsPlain (plan_numbers plan.now).entries }
    requires room { HasRoom (plan_spelling (plan_numbers plan.now)) pen.old }
    ensures { Wrote (plan_spelling (plan_numbers plan.now)) pen.old pen.new }
{
    write_header(pen, plan);
    write_schedule(pen, plan.schedule);
}
