//! Tests of `cwr_field` and `cwr_record`: fields by values of the standards, and records line by line, against lines
//! that were written by hand.
#![tactic(auto)]

#[cfg(test)]
mod acknowledgements;
#[cfg(test)]
mod control_records;
#[cfg(test)]
mod faults;
#[cfg(test)]
mod fields;
#[cfg(test)]
mod lines;
#[cfg(test)]
mod single_fields;
#[cfg(test)]
mod stamps;
#[cfg(test)]
mod types;
#[cfg(test)]
mod work_records;
