//! Reads turn files: a stack of locks, each worker's script, and who ran at each step.
#![tactic(auto)]

pub mod fault;
pub mod field;
pub mod limits;
pub mod number;
pub mod plan;
pub mod plan_reader;
pub mod reader;
pub mod record;
mod scan;
mod step;
