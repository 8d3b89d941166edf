//! Reads a turn file on standard input, and prints it as text, or why it is refused.
#![tactic(auto)]

mod text;

use std::io;
use std::io::{BufWriter, Read, Write};
use text::PlanText;
use turn_file::limits::LONGEST_FILE;
use turn_file::plan::Plan;
use turn_file::plan_reader::read_plan;

// One byte more than a turn file may have is enough to see that the input is too long.
fn read_file(rt: &HostRuntime) -> io::Result<Vec<u8>> {
    let mut file = Vec::new(rt.alloc());
    rt.stdin()
        .take(LONGEST_FILE as u64 + 1)
        .read_to_end(&mut file)?;
    Ok(file)
}

fn main(rt: HostRuntime) -> io::Result<()> {
    let file = read_file(&rt)?;
    let mut out = BufWriter::new(rt.alloc(), rt.stdout())?;
    let mut plan = Plan::blank();
    match read_plan(&file, &mut plan) {
        Ok(()) => write!(out, "{}", PlanText(plan))?,
        Err(fault) => writeln!(out, "{fault}")?,
    }
    out.flush()
}
