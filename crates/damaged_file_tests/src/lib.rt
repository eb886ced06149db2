//! Tests of truncated and malicious files, and of readers and writers that fail: of one file alone, in turn and at the
//! desk.
#![tactic(auto)]

#[cfg(test)]
mod bytes;
#[cfg(test)]
mod chunks;
#[cfg(test)]
mod cuts;
#[cfg(test)]
mod failures;
#[cfg(test)]
mod three_ways;
