//! What the writer makes of a plan.
use crate::checksum::mix_all;
use crate::plan_line::PlanLine;
use std::alloc::{AllocError, Global};
use std::fmt;
use turn_file::fault::FileFault;
use turn_file::plan::Plan;
use turn_writer::plan_writer::write_plan;

/// The writer's answer is the length of the file, or why the plan is refused.
/// The checksum is that of the whole output, so that it shows a byte written at a refusal, or behind the file.
#[derive(Drop)]
pub(crate) struct Outcome {
    answer: Result<usize, FileFault>,
    checksum: u64,
}

impl Outcome {
    pub(crate) fn of(heap: Global, line: &PlanLine) -> Result<Outcome, AllocError> {
        let mut out = blank_output(heap, line.space)?;
        let answer = write_plan(&line.plan(), &mut out);
        let checksum = mix_all(0, &out);
        Ok(Outcome { answer, checksum })
    }
}

impl fmt::Display for Outcome {
    fn fmt<W: fmt::Write>(&self, f: &mut fmt::Formatter<W>) -> fmt::Result {
        let Outcome { answer, checksum } = self;
        match answer {
            Ok(length) => write!(f, "written {length} {checksum}"),
            Err(fault) => write!(f, "{fault} {checksum}"),
        }
    }
}

// An output that nothing was written to.
fn blank_output(heap: Global, length: usize) -> Result<Vec<u8>, AllocError> {
    vec![in heap; 0xaa; length]
}

/// Whether the writer makes the same file again of the plan that was read of it.
pub(crate) fn is_written_back(
    heap: Global,
    plan: &Plan<'_>,
    file: &[u8],
) -> Result<bool, AllocError> {
    let mut out = blank_output(heap, file.len())?;
    let answer = write_plan(plan, &mut out);
    Ok(answer == Ok(file.len()) && out.as_slice() == file)
}
