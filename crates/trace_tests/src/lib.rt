// Tests by example: the reader and the writer of steps. Pairs of whole files are in pairs/.
#![tactic(auto)]

#[cfg(test)]
mod read_back;
#[cfg(test)]
mod read_records;
#[cfg(test)]
mod refused_reading;
#[cfg(test)]
mod refused_writing;
#[cfg(test)]
mod steps;
#[cfg(test)]
mod two_batches;
#[cfg(test)]
mod written_steps;
