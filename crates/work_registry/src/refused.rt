use cwr_call::Call;
use std::alloc::{Allocator, Global};
use std::marker::Model;

/// Why a book did not take a call.
#[derive(Clone, Copy, Debug, PartialEq, Eq, Hash)]
pub enum HandInError {
    /// The book holds as many entries as its limit.
    Full,
    /// The system refused memory.
    Memory,
}

/// A call that a book did not take. The book is as it was.
#[derive_where(Debug)]
#[derive(Drop)]
pub struct Refused<A: Allocator = Global> {
    /// The call, returned.
    pub call: Call<A>,
    /// Why it was not taken.
    pub why: HandInError,
}

impl<A: Allocator> Model for Refused<A> {
    ghost use Rattle.work_registry.specs.Refusals.{RefusedValue};

    ghost Value = { RefusedValue };

    ghost view = { λ r. record { call = r.call; why = r.why } };
}
