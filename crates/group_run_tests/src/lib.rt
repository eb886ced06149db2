//! Tests that a run of any number of jobs leaves what a chain of runs of at most 63 leaves, each from the register of
//! the one before; and that readers and writers are told when their text has ended.
#![tactic(auto)]

#[cfg(test)]
mod ended_texts;
#[cfg(test)]
mod failures;
#[cfg(test)]
mod files;
#[cfg(test)]
mod kinds;
#[cfg(test)]
mod numbers;
#[cfg(test)]
mod open_texts;
#[cfg(test)]
mod same_runs;
#[cfg(test)]
mod told;
