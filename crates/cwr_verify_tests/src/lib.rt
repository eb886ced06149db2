//! Tests of files and their acknowledgements against a register: which entries answer them, and what is reported if
//! they do not fit. Tests of acknowledgements that are made again from a register.
#![tactic(auto)]

#[cfg(test)]
mod again;
#[cfg(test)]
mod answered;
#[cfg(test)]
mod refused;
#[cfg(test)]
mod runs;
#[cfg(test)]
mod unverified;
