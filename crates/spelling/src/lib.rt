// Steps as bytes: how they are spelt, their reader, and that each has one spelling.
#![tactic(auto)]

mod layout;
pub mod spellings;
pub mod step_reader;
