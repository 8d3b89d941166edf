//! Reads turn files and plans on standard input, a line for each, and prints a line on each.
//! A file is a line of hexadecimal: the answer is what it holds, or why it is refused;
//! or the word `changed`, where the writer makes another file of the plan that was read.
//! A plan is a line that begins with the word `plan`: the answer is how it is written, or why it is refused.
#![tactic(auto)]

mod checksum;
mod hex;
mod plan_line;
mod repeated;
mod summary;
#[cfg(test)]
mod tests;
mod writing;

use hex::parse_bytes;
use plan_line::PlanLine;
use std::alloc::Global;
use std::io::{BufRead, BufReader, BufWriter, Write};
use summary::Summary;
use turn_file::fault::FileFault;
use turn_file::plan::Plan;
use turn_file::plan_reader::read_plan;
use writing::{Outcome, is_written_back};

fn read(file: &[u8]) -> Result<Plan<'_>, FileFault> {
    let mut plan = Plan::blank();
    read_plan(file, &mut plan)?;
    Ok(plan)
}

// What the file holds, or why it is refused, or that the writer makes another file of it.
fn answer_file(out: &mut impl Write, heap: Global, line: &str) -> anyhow::Result<()> {
    let file = parse_bytes(heap, line)?;
    match read(&file) {
        Ok(plan) if is_written_back(heap, &plan, &file)? => {
            writeln!(out, "{}", Summary::of(&plan))?
        }
        Ok(_) => writeln!(out, "changed")?,
        Err(fault) => writeln!(out, "{fault}")?,
    }
    Ok(())
}

// How the plan is written, or why it is refused.
fn answer_plan(out: &mut impl Write, heap: Global, words: &str) -> anyhow::Result<()> {
    let line = PlanLine::parse(heap, words)?;
    writeln!(out, "{}", Outcome::of(heap, &line)?)?;
    Ok(())
}

fn main(rt: HostRuntime) -> anyhow::Result<()> {
    let heap = rt.alloc();
    let mut out = BufWriter::new(heap, rt.stdout())?;
    for line in BufReader::new(heap, rt.stdin())?.lines(heap) {
        let line = line?;
        match line.as_str().strip_prefix("plan ") {
            Some(words) => answer_plan(&mut out, heap, words)?,
            None => answer_file(&mut out, heap, line.as_str())?,
        }
    }
    out.flush()?;
    Ok(())
}
