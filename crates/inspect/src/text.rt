//! A plan as text: a line for each record, and what follows from other numbers in comments.
ghost use Rattle.std.specs.Fmt.{WritesOnOk};
ghost use Rattle.std.specs.Prelude.{Some};
ghost use Rattle.inspect.specs.Text.{level_text, script_text, schedule_text};
ghost use Rattle.inspect.specs.Text.{level_lines, script_lines, schedule_lines, plan_text};
ghost use Rattle.turn_file.specs.Plan.{plan_numbers};

use std::fmt;
use turn_file::plan::{Level, Plan, Script};

const ENTRIES_PER_LINE: usize = 32;

// A level by its number, which is 1 at the top. The top level has no handoff limit.
#[derive(Drop)]
struct LevelLine {
    number: usize,
    level: Level,
    lanes: u32,
}

impl fmt::Display for LevelLine {
    ghost output = { λ l. Some (level_text l.number l.level l.lanes) };

    fn fmt<W: fmt::Write>(&self, f: &mut fmt::Formatter<W>) -> fmt::Result {
        let LevelLine { number, lanes, .. } = *self;
        let Level {
            algorithm,
            fan_out,
            handoff_limit,
        } = self.level;
        if number == 1 {
            write!(
                f,
                "level {number} {algorithm} fan-out {fan_out} # lanes {lanes}"
            )
        } else {
            write!(
                f,
                "level {number} {algorithm} fan-out {fan_out} handoff-limit {handoff_limit} # lanes {lanes}"
            )
        }
    }
}

#[derive(Drop)]
struct ScriptLine {
    worker: usize,
    script: Script,
}

impl fmt::Display for ScriptLine {
    ghost output = { λ l. Some (script_text l.worker l.script) };

    fn fmt<W: fmt::Write>(&self, f: &mut fmt::Formatter<W>) -> fmt::Result {
        let ScriptLine { worker, script } = self;
        let Script { turns, rest, hold } = script;
        write!(f, "script {worker} turns {turns} rest {rest} hold {hold}")
    }
}

#[derive(Drop)]
struct ScheduleLine<'a>(&'a [u8]);

impl fmt::Display for ScheduleLine<'_> {
    ghost output = { λ l. Some (schedule_text l.0.now) };

    fn fmt<W: fmt::Write>(&self, f: &mut fmt::Formatter<W>) -> fmt::Result {
        f.write_str("schedule")?;
        for entry in self.0 {
            write!(f, " {entry}")?;
        }
        Ok(())
    }
}

fn write_levels<W: fmt::Write>(f: &mut fmt::Formatter<W>, levels: &[Level]) -> fmt::Result
    ensures { WritesOnOk W.write_str_gives f.old result (level_lines 1 1 levels.now) f.new }
{
    let mut lanes = 1;
    for (rank, &level) in levels.iter().enumerate() {
        let line = LevelLine {
            number: rank + 1,
            level,
            lanes,
        };
        writeln!(f, "{line}")?;
        lanes = level.lanes_below(lanes);
    }
    Ok(())
}

fn write_scripts<W: fmt::Write>(f: &mut fmt::Formatter<W>, scripts: &[Script]) -> fmt::Result
    ensures { WritesOnOk W.write_str_gives f.old result (script_lines 0 scripts.now) f.new }
{
    for (worker, &script) in scripts.iter().enumerate() {
        writeln!(f, "{}", ScriptLine { worker, script })?;
    }
    Ok(())
}

// A schedule without entries has a line too.
fn write_schedule<W: fmt::Write>(f: &mut fmt::Formatter<W>, entries: &[u8]) -> fmt::Result
    ensures { WritesOnOk W.write_str_gives f.old result (schedule_lines entries.now) f.new }
{
    if entries.is_empty() {
        return writeln!(f, "schedule");
    }
    for line in entries.chunks(ENTRIES_PER_LINE) {
        writeln!(f, "{}", ScheduleLine(line))?;
    }
    Ok(())
}

fn write_plan<W: fmt::Write>(f: &mut fmt::Formatter<W>, plan: &Plan<'_>) -> fmt::Result
    ensures { WritesOnOk W.write_str_gives f.old result (plan_text (plan_numbers plan.now)) f.new }
{
    writeln!(f, "levels {}", plan.level_count)?;
    write_levels(f, plan.used_levels())?;
    writeln!(f, "# workers {}", plan.workers())?;
    write_scripts(f, plan.used_scripts())?;
    writeln!(f, "# entries {}", plan.schedule.len())?;
    write_schedule(f, plan.schedule)
}

/// The whole text, each line ended.
#[derive(Drop)]
pub(crate) struct PlanText<'a>(pub(crate) Plan<'a>);

impl fmt::Display for PlanText<'_> {
    ghost output = { λ t. Some (plan_text (plan_numbers t.0)) };

    fn fmt<W: fmt::Write>(&self, f: &mut fmt::Formatter<W>) -> fmt::Result {
        write_plan(f, &self.0)
    }
}
