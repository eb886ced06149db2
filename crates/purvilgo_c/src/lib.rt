//! Checks, acknowledgements, audits, tables and a registry for C, and for all that calls C: bytes in, bytes out.
//!
//! Each export calls the library below and states what that call does. `include/purvilgo.h` says what its callers have
//! to ensure. What a call gives and gets is in `c_values`: it returns one of the [`status`](c_values::status) numbers,
//! and writes its results through references. If a text is longer than the given buffer, the call gives its length and
//! writes none of it.
//!
//! Nothing is kept from one call to the next, except a registry behind a [`Handle`](handle::Handle): a pointer, which a
//! contract sees as what is behind it. A call takes the registry out, does its work, and puts it back.
#![tactic(auto)]

mod about;
mod bare;
mod checking;
mod explaining;
mod handle;
mod laws;
mod one_file;
mod opening;
mod outcome;
mod registers;
mod registry_contents;
mod running;
mod tables;
#[cfg(test)]
mod tests_of_files;
#[cfg(test)]
mod tests_of_handles;
mod verifying;
