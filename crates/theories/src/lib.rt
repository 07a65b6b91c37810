// Theories: which plans are admitted, and which rules hold between differences.
#![tactic(auto)]

pub mod bare;
pub mod one_vat;
pub mod pairs;
pub mod pairwise;
pub mod parts;
pub mod shared_results;
pub mod theory;
