//! Tests of calls from C that could say that memory was refused where there is enough of it: tables and pages, also
//! long ones, files that are run one after the other and against a register that is read again, and files that were
//! sent.
#![tactic(auto)]

#[cfg(test)]
mod registries;
#[cfg(test)]
mod sent;
#[cfg(test)]
mod texts;
