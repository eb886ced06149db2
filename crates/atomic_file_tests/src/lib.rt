//! Tests of `atomic_file`: each call that fails in turn, what a crash leaves, and files of the system.
#![tactic(auto)]

#[cfg(test)]
mod crashes;
#[cfg(test)]
mod cut_texts;
#[cfg(test)]
mod each_failure;
#[cfg(test)]
mod memory_storage;
#[cfg(test)]
mod odd_system;
#[cfg(test)]
mod system_files;
