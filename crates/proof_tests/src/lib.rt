// Tests by example: the steps of a proof, each refusal that they can answer, and what closing says.
#![tactic(auto)]

#[cfg(test)]
mod depths;
#[cfg(test)]
mod full_tables;
#[cfg(test)]
mod outcome;
#[cfg(test)]
mod refused_cuts;
#[cfg(test)]
mod refused_infers;
#[cfg(test)]
mod refused_steps;
#[cfg(test)]
mod solved_jobs;
#[cfg(test)]
mod steps_as_values;
mod used_up;
