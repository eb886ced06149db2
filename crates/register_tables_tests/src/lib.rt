//! Tests of a register's tables and of its summary: the example of the profile's decisions, texts that CSV must quote,
//! rows that are wanted, bands of what is left, more conflicts and submitters than are told, plain tables, and JSON.
#![tactic(auto)]

#[cfg(test)]
mod books;
#[cfg(test)]
mod failing_writer;
#[cfg(test)]
mod objects;
#[cfg(test)]
mod plain;
#[cfg(test)]
mod quoted;
#[cfg(test)]
mod submitters;
#[cfg(test)]
mod summaries;
#[cfg(test)]
mod tables;
#[cfg(test)]
mod wanted;
