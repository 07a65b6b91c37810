// Job and trace files.
#![tactic(auto)]

mod cursor;
pub mod fault;
pub mod job_file;
pub mod job_records;
pub mod place;
pub mod reader;
pub mod records;
pub mod theory;
pub mod trace_file;
pub mod two_files;
