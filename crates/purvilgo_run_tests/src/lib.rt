//! Tests of the program's runs, over a runtime of the tests' own: many files, registers, and what is left if a call
//! fails.
#![tactic(auto)]

#[cfg(test)]
mod at_once;
#[cfg(test)]
mod disks;
#[cfg(test)]
mod ends;
#[cfg(test)]
mod files;
#[cfg(test)]
mod kept_registers;
#[cfg(test)]
mod kept_whole;
#[cfg(test)]
mod large_files;
#[cfg(test)]
mod limits;
#[cfg(test)]
mod listed_runs;
#[cfg(test)]
mod names_taken;
#[cfg(test)]
mod runs;
