// What everything else is said in: rows over whole numbers, plans, differences, and the faults of a refused call.
#![tactic(auto)]

pub mod checks;
pub mod difference;
pub mod fault;
pub mod making;
pub mod meeting;
pub mod row;
