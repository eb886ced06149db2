//! Tests of many files at one book: in turn, at seats of a desk, on threads, and with gates that stop some of them.
#![tactic(auto)]

#[cfg(test)]
mod continued;
#[cfg(test)]
mod gates;
#[cfg(test)]
mod many_jobs;
#[cfg(test)]
mod seats;
#[cfg(test)]
mod threads;
#[cfg(test)]
mod turns;
