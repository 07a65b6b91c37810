// Reads job.bct in the current folder, checks it whole, and prints the job that it spells and what is known of it, or the refusal.
// With the argument `check` it reads trace.bct as well, and prints what the trace shows of the job, or the first refusal.
// With the argument `list` it prints the job that job.bct spells. Any other argument changes nothing.
#![tactic(auto)]

mod input;
mod listing;

use derivation::verdict::Verdict;
use files::job_file::read_job;
use files::reader::JobFile;
use files::theory::FileTheory;
use files::two_files::check;
use std::rt::Runtime;
use std::{env, io};
use theories::bare::Bare;

fn main(rt: HostRuntime) -> io::Result<()> {
    let mut args = env::args(&rt)?;
    args.next();
    match args.next() {
        Some(word) if word.as_str() == "check" => check_files(&rt),
        Some(word) if word.as_str() == "list" => list(&rt),
        _ => job_alone(&rt),
    }
}

// The job in words, and what is known of it before any step.
fn job_alone(rt: &impl Runtime) -> io::Result<()> {
    let job = input::read_file(rt, "job.bct")?;
    match read_job(job.as_slice()) {
        Ok(spelt) => {
            listing::print_job(rt, &spelt)?;
            rt.println(without_steps(spelt))
        }
        Err(fault) => rt.println(fault),
    }
}

// What a derivation of no steps shows.
fn without_steps(spelt: JobFile) -> Verdict {
    let JobFile { job, theory } = spelt;
    // Each case opens the job at a type of its own, which no closure can take.
    match theory {
        FileTheory::Bare => job.open(Bare).close(),
        FileTheory::Shared(calls) => job.open(calls).close(),
        FileTheory::OneVat(batches) => job.open(batches).close(),
    }
}

// What the trace shows of the job.
fn check_files(rt: &impl Runtime) -> io::Result<()> {
    let job = input::read_file(rt, "job.bct")?;
    let trace = input::read_file(rt, "trace.bct")?;
    match check(job.as_slice(), trace.as_slice()) {
        Ok(shown) => rt.println(shown),
        Err(fault) => rt.println(fault),
    }
}

// The job in words.
fn list(rt: &impl Runtime) -> io::Result<()> {
    let job = input::read_file(rt, "job.bct")?;
    match read_job(job.as_slice()) {
        Ok(spelt) => listing::print_job(rt, &spelt),
        Err(fault) => rt.println(fault),
    }
}
