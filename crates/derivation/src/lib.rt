// Jobs, proofs, their steps and their verdicts.
#![tactic(auto)]

pub mod asking;
pub mod bounding;
pub mod branching;
pub mod combining;
pub mod costs;
pub mod filling;
pub mod inferring;
pub mod job;
pub mod lines;
pub mod meeting;
pub mod opening;
pub mod pinning;
pub mod proof;
mod row_stack;
pub mod rows;
pub mod rule;
pub mod running;
pub mod state;
pub mod steps;
mod sums;
pub mod table;
pub mod verdict;
