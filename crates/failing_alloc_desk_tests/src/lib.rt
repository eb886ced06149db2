//! Tests with `failing_alloc` of the desk and its seats: each request for memory of each of their calls is refused in
//! turn.
#![tactic(auto)]

#[cfg(test)]
mod seats;
