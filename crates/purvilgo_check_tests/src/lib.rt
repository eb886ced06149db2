//! Tests of what the program prints of a file that is checked, of the rules, and of a register, over a runtime of the
//! tests' own.
#![tactic(auto)]

#[cfg(test)]
mod answered_files;
#[cfg(test)]
mod explained;
#[cfg(test)]
mod json_checks;
#[cfg(test)]
mod long_checks;
#[cfg(test)]
mod long_faults;
#[cfg(test)]
mod printed_forms;
#[cfg(test)]
mod printed_pages;
#[cfg(test)]
mod printed_tables;
#[cfg(test)]
mod remarks;
#[cfg(test)]
mod several_files;
#[cfg(test)]
mod verified_files;
#[cfg(test)]
mod whole_files;
