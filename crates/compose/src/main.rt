//! Reads the text of a turn file on standard input, and writes the file on standard output.
#![tactic(auto)]

mod composition;
mod failure;
mod lines;
mod number;
mod records;
#[cfg(test)]
mod tests;
mod unreadable;
mod words;

use composition::Composition;
use failure::Failure;
use std::io::{Read, Write};
use std::process::ExitCode;
use turn_writer::plan_writer::{file_length, write_plan};

fn run(rt: &HostRuntime) -> Result<(), Failure> {
    let mut text = Vec::new(rt.alloc());
    rt.stdin().read_to_end(&mut text)?;
    let composition = Composition::read(rt.alloc(), &text)?;
    let plan = composition.plan();
    // The file takes the place of its text, which is never shorter, so it needs no memory of its own.
    let mut file = text;
    file.resize(file_length(&plan)?, 0)?;
    write_plan(&plan, &mut file)?;
    rt.stdout().write_all(&file)?;
    Ok(())
}

// A failure is one line on standard error, and the status is then 1.
fn main(rt: HostRuntime) -> ExitCode {
    match run(&rt) {
        Ok(()) => ExitCode::SUCCESS,
        Err(failure) => {
            let _ = eprintln!(rt; "{failure}");
            ExitCode::FAILURE
        }
    }
}
