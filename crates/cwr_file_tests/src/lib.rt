//! Tests of `cwr_file`: bytes in and out, submission files, and acknowledgements of worked examples.
#![tactic(auto)]

#[cfg(test)]
mod acknowledgements;
#[cfg(test)]
mod chunks;
#[cfg(test)]
mod cuts_and_sizes;
#[cfg(test)]
mod first_faults;
#[cfg(test)]
mod interruptions;
#[cfg(test)]
mod lines;
#[cfg(test)]
mod sent;
#[cfg(test)]
mod streams;
#[cfg(test)]
mod taken;
#[cfg(test)]
mod visited;
#[cfg(test)]
mod widths;
#[cfg(test)]
mod windows;
