//! Tests of one file at a time: how it is read and written, and what it is refused for; what is decided on its
//! transactions and acknowledged, alone, in turn and at the desk; and what a check reports of it.
#![tactic(auto)]

#[cfg(test)]
mod checks;
#[cfg(test)]
mod decided;
#[cfg(test)]
mod files;
#[cfg(test)]
mod lines;
#[cfg(test)]
mod refused_files;
#[cfg(test)]
mod three_ways;
