//! Tests of `cwr_rules`: transactions with the faults that the rules find in them, and what a call can be made of.
#![tactic(auto)]

#[cfg(test)]
mod calls;
#[cfg(test)]
mod headers;
#[cfg(test)]
mod judging;
#[cfg(test)]
mod order;
#[cfg(test)]
mod parties;
#[cfg(test)]
mod records;
#[cfg(test)]
mod shares;
#[cfg(test)]
mod totals;
