//! What is said of a plan that was read.
use crate::checksum::{mix, mix_all};
use std::fmt;
use turn_file::plan::{Level, Plan, Script};

#[derive(Drop)]
pub(crate) struct Summary {
    levels: u32,
    workers: u32,
    entries: usize,
    checksum: u64,
}

impl Summary {
    pub(crate) fn of(plan: &Plan<'_>) -> Summary {
        Summary {
            levels: plan.level_count,
            workers: plan.workers(),
            entries: plan.schedule.len(),
            checksum: checksum(plan),
        }
    }
}

impl fmt::Display for Summary {
    fn fmt<W: fmt::Write>(&self, f: &mut fmt::Formatter<W>) -> fmt::Result {
        let Summary {
            levels,
            workers,
            entries,
            checksum,
        } = self;
        write!(f, "ok {levels} {workers} {entries} {checksum}")
    }
}

// The top level has no handoff limit in the file.
fn mix_top_level(sum: u64, level: &Level) -> u64 {
    mix_all(sum, &[u32::from(level.algorithm), level.fan_out])
}

fn mix_level(sum: u64, level: &Level) -> u64 {
    mix(mix_top_level(sum, level), u64::from(level.handoff_limit))
}

fn mix_levels(sum: u64, levels: &[Level]) -> u64 {
    match levels {
        [] => sum,
        [top, below @ ..] => below.iter().fold(mix_top_level(sum, top), mix_level),
    }
}

fn mix_script(sum: u64, script: &Script) -> u64 {
    mix_all(sum, &[script.turns, script.rest, script.hold])
}

// Of all numbers of the plan, in the order of the file.
fn checksum(plan: &Plan<'_>) -> u64 {
    let with_count = mix(0, u64::from(plan.level_count));
    let with_levels = mix_levels(with_count, plan.used_levels());
    let with_scripts = plan.used_scripts().iter().fold(with_levels, mix_script);
    let with_entry_count = mix(with_scripts, plan.schedule.len() as u64);
    mix_all(with_entry_count, plan.schedule)
}
