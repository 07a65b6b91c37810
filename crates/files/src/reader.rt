// How far a job file is read.
use crate::records::Phase;
use crate::theory::FileTheory;
use derivation::job::Job;

#[derive(Drop)]
pub struct JobReader {
    pub phase: Phase,
    pub file: JobFile,
}

// A job and its theory, as a file spells them.
#[derive(Drop)]
pub struct JobFile {
    pub job: Job,
    pub theory: FileTheory,
}
