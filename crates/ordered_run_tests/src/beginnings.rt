//! The books that runs begin with.
ghost use Rattle.std.specs.Prelude.{◌≡◌, ◌≤◌, true, IfOk};
ghost use Rattle.work_registry.specs.Replay.{is_opening};

use cwr_desk::{Book, read_register};
use std::alloc::Global;
use std::test::Fail;

/// The book that a run begins with, of which each of two runs gets one.
#[derive(Drop)]
pub(crate) struct Beginning {
    /// The register that it goes on from, if it is not empty.
    register: Option<Vec<u8>>,
    /// The number of entries that it may hold.
    limit: u32,
    ghost least: { 1 ≤ limit },
    ghost most: { limit ≤ 10000 },
}

impl Beginning {
    /// An empty book that may hold `limit` entries.
    pub(crate) fn empty(limit: u32) -> Beginning
        requires least { 1 ≤ limit }
        requires most { limit ≤ 10000 }
    {
        Beginning {
            register: None,
            limit,
        }
    }

    /// A book that goes on from a register and may hold `limit` entries.
    pub(crate) fn after(register: Vec<u8>, limit: u32) -> Beginning
        requires least { 1 ≤ limit }
        requires most { limit ≤ 10000 }
    {
        Beginning {
            register: Some(register),
            limit,
        }
    }

    /// A book with this beginning.
    pub(crate) fn book(&self, alloc: Global) -> Result<Book, Fail>
        ensures { IfOk result (λ book. is_opening book.history ≡ true) }
    {
        match &self.register {
            None => Ok(Book::new(alloc, self.limit)),
            Some(register) => Ok(read_register(alloc, register, self.limit)?),
        }
    }
}
