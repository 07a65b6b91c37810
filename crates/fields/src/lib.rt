// Numbers, maps and row bodies at the front of bytes.
#![tactic(auto)]

pub mod body;
pub mod bytes;
pub mod letters;
pub mod maps;
