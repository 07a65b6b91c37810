// Tests by example: jobs, theories and job files, and each refusal that they can answer.
#![tactic(auto)]

#[cfg(test)]
mod bytes_at_a_fault;
#[cfg(test)]
mod file_refusals;
#[cfg(test)]
mod filling_jobs;
#[cfg(test)]
mod full_files;
#[cfg(test)]
mod outcome;
#[cfg(test)]
mod shared_calls;
#[cfg(test)]
mod torn_files;
#[cfg(test)]
mod vat_batches;
