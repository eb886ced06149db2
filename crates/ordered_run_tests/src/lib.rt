//! Tests that files worked in their order, and read on threads, leave what the same files leave worked in turn. They
//! take made sets of files, readers and writers that fail, long files, and readers and writers that wait for others.
#![tactic(auto)]

#[cfg(test)]
mod beginnings;
#[cfg(test)]
mod beside;
#[cfg(test)]
mod counts;
#[cfg(test)]
mod failures;
#[cfg(test)]
mod long_files;
#[cfg(test)]
mod made_sets;
#[cfg(test)]
mod numbers;
#[cfg(test)]
mod same_runs;
#[cfg(test)]
mod stock;
