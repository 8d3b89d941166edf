//! Writes turn files.
#![tactic(auto)]

mod judge;
mod pen;
pub mod plan_writer;
mod record_writer;
