//! Tests with `failing_alloc` of jobs: each request for memory of each call that works a file is refused in turn.
#![tactic(auto)]

#[cfg(test)]
mod ends;
#[cfg(test)]
mod in_order;
#[cfg(test)]
mod in_turn;
#[cfg(test)]
mod jobs;
#[cfg(test)]
mod lines;
#[cfg(test)]
mod on_threads;
#[cfg(test)]
mod one_job;
