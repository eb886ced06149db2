//! Tests of files and books of real size, in ample memory: how they are read, judged, checked and acknowledged, the
//! registers that they leave, and all seats of a desk at work at once.
#![tactic(auto)]

#[cfg(test)]
mod acknowledged;
#[cfg(test)]
mod entries;
#[cfg(test)]
mod seats;
#[cfg(test)]
mod transactions;
