// The writer of trace records.
#![tactic(auto)]

mod pen;
pub mod step_writer;
