//! A line that describes a plan, and the space that is lent for its file:
//! `plan SPACE COUNT levels A F H .. scripts T R H .. schedule E E*N ..`.
//! COUNT is the plan's count of levels. A level is its algorithm, fan-out and handoff limit, a script its turns,
//! rest and hold. The tables may be shorter than COUNT and the fan-outs say, or longer; what is missing stays blank.
use crate::repeated::split_times;
use anyhow::{Context, bail, ensure};
use std::alloc::Global;
use turn_file::plan::{Algorithm, Level, Plan, Script};

/// The length of the output, the plan's levels and scripts, and the entries of its schedule.
#[derive(Drop)]
pub(crate) struct PlanLine {
    pub(crate) space: usize,
    tables: Plan<'static>,
    entries: Vec<u8>,
}

impl PlanLine {
    /// Reads what follows the word `plan`.
    pub(crate) fn parse(heap: Global, line: &str) -> anyhow::Result<PlanLine> {
        let (sizes, rest) = line.split_once("levels").context("no levels")?;
        let (levels, rest) = rest.split_once("scripts").context("no scripts")?;
        let (scripts, schedule) = rest.split_once("schedule").context("no schedule")?;
        let (space, level_count) = parse_sizes(heap, sizes)?;
        let mut tables = Plan {
            level_count,
            ..Plan::blank()
        };
        let levels = numbers(heap, levels)?;
        enter(&mut tables.levels, &levels, level_of, "levels")?;
        let scripts = numbers(heap, scripts)?;
        enter(&mut tables.scripts, &scripts, script_of, "scripts")?;
        let entries = parse_entries(heap, schedule)?;
        Ok(PlanLine {
            space,
            tables,
            entries,
        })
    }

    pub(crate) fn plan(&self) -> Plan<'_> {
        Plan {
            schedule: &self.entries,
            ..self.tables
        }
    }
}

fn numbers(heap: Global, text: &str) -> anyhow::Result<Vec<u32>> {
    text.split_whitespace()
        .map(|word| -> anyhow::Result<u32> { Ok(word.parse()?) })
        .try_collect(heap)
}

// The space and the count of levels.
fn parse_sizes(heap: Global, text: &str) -> anyhow::Result<(usize, u32)> {
    let sizes = numbers(heap, text)?;
    let [space, level_count] = *sizes.as_slice() else {
        bail!("a plan begins with its space and its count of levels");
    };
    Ok((space as usize, level_count))
}

fn level_of(numbers: &[u32]) -> anyhow::Result<Level> {
    let [algorithm, fan_out, handoff_limit] = *numbers else {
        bail!("a level is not three numbers");
    };
    // By `?` alone another text would be printed, that of `UnknownAlgorithm`.
    let algorithm = Algorithm::try_from(algorithm)
        .ok()
        .context("no such algorithm")?;
    Ok(Level {
        algorithm,
        fan_out,
        handoff_limit,
    })
}

fn script_of(numbers: &[u32]) -> anyhow::Result<Script> {
    let [turns, rest, hold] = *numbers else {
        bail!("a script is not three numbers");
    };
    Ok(Script { turns, rest, hold })
}

// Enters what each three numbers say, from the front of the table on.
fn enter<T: Drop, F: Fn(&[u32]) -> anyhow::Result<T>>(
    table: &mut [T],
    numbers: &[u32],
    item_of: F,
    names: &str,
) -> anyhow::Result<()>
    requires { F.IsAlwaysCallable item_of }
{
    for (place, three) in table.iter_mut().zip(numbers.chunks(3)) {
        *place = item_of(three)?;
    }
    ensure!(numbers.chunks(3).len() <= table.len(), "too many {names}");
    Ok(())
}

fn parse_entries(heap: Global, text: &str) -> anyhow::Result<Vec<u8>> {
    let mut entries = Vec::new(heap);
    for word in text.split_whitespace() {
        let (entry, times) = split_times(word)?;
        entries.resize(entries.len().saturating_add(times), entry.parse()?)?;
    }
    Ok(entries)
}
