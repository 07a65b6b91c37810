// What a job and a derivation over it are, and the law of derivations.
#![tactic(auto)]

pub mod law;
pub mod lists;
pub mod numbers;
pub mod premise;
pub mod relation;
pub mod step;
