//! Tests of the lock: of `ticket_core`, event by event, and of `registry_desk`, whose seats take turns, on one thread
//! and on many.
#![tactic(auto)]

#[cfg(test)]
mod desks;
#[cfg(test)]
mod openings;
#[cfg(test)]
mod pure_lock;
#[cfg(test)]
mod seats;
#[cfg(test)]
mod threads;
#[cfg(test)]
mod turns;
