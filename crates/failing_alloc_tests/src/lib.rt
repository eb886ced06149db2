//! Tests with `failing_alloc` of the crates that keep no works: each request for memory of each of their calls is
//! refused in turn. Beside these, reports as JSON, by calls that take the system's allocator.
#![tactic(auto)]

#[cfg(test)]
mod allocators;
#[cfg(test)]
mod answers;
#[cfg(test)]
mod array_locks;
#[cfg(test)]
mod control_records;
#[cfg(test)]
mod files;
#[cfg(test)]
mod json_texts;
#[cfg(test)]
mod pages;
#[cfg(test)]
mod reports;
#[cfg(test)]
mod rooms;
#[cfg(test)]
mod sweeps;
#[cfg(test)]
mod texts;
#[cfg(test)]
mod ticket_locks;
#[cfg(test)]
mod work_records;
