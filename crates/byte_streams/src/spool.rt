ghost use Rattle.std.specs.Prelude.{◌≡◌, ◌≤◌, ◌+◌, [], Some, false, length, IfOk, IsOk};
ghost use Rattle.std.specs.Io.KnownBytes.{WriteAppends};
ghost use Rattle.byte_streams.specs.Bytes.{stalls};

use crate::{Failed, Memory, Sink};
use std::alloc::{Allocator, Global};
use std::marker::Model;

/// A sink that keeps all that it takes in memory, which grows as needed.
///
/// It is for a text whose size is not known beforehand. [`Room`](crate::Room) asks for all its memory at once.
#[derive_where(Debug)]
#[derive(Drop)]
pub struct Spool<A: Allocator = Global> {
    bytes: Vec<u8, A>,
    failed: bool,
}

impl<A: Allocator> Model for Spool<A> {
    ghost use Rattle.std.specs.Prelude.{vec_capacity};
    ghost use Rattle.byte_streams.specs.Spool.{SpoolState};

    ghost Value = { SpoolState };

    ghost view = { λ s. record {
      taken = s.bytes.items;
      capacity = vec_capacity s.bytes;
      has_failed = s.failed;
    } };
}

impl<A: Allocator> Spool<A> {
    /// A sink that took nothing so far. No memory is asked for.
    pub fn new(alloc: A) -> Spool<A>
        ensures empty { result.taken ≡ [] }
        ensures works { result.has_failed ≡ false }
    {
        Spool {
            bytes: Vec::new(alloc),
            failed: false,
        }
    }

    /// A sink that takes at least its first `capacity` bytes without asking for more memory.
    pub fn with_capacity(alloc: A, capacity: usize) -> Result<Spool<A>, Memory>
        ensures empty { IfOk result (λ s. s.taken ≡ []) }
        ensures room { IfOk result (λ s. capacity ≤ s.capacity) }
        ensures works { IfOk result (λ s. s.has_failed ≡ false) }
        ensures none_needed { capacity ≡ 0 → IsOk result }
    {
        Ok(Spool {
            bytes: Vec::with_capacity(alloc, capacity)?,
            failed: false,
        })
    }

    /// What it took, also after a failure.
    pub fn bytes(&self) -> &[u8]
        ensures { result.now ≡ self.now.taken }
    {
        self.bytes.as_slice()
    }

    /// What it took, as the vector that holds it.
    pub fn into_bytes(self) -> Vec<u8, A>
        ensures { result.items ≡ self.taken }
    {
        let Spool { bytes, failed: _ } = self;
        bytes
    }
}

impl<A: Allocator> Sink for Spool<A> {
    ghost taken = { λ s. Some s.taken };

    ghost has_failed = { λ s. s.has_failed };

    fn failed(&self) -> bool {
        self.failed
    }

    /// Takes all of the bytes. It fails where memory is refused. While there is room, no memory is asked for.
    fn write_some(&mut self, bytes: &[u8]) -> Result<usize, Failed>
        requires { self.old.has_failed ≡ false }
        ensures bound { IfOk result (λ n. n ≤ length bytes.now) }
        ensures bytes { WriteAppends (Some self.old.taken) (Some self.new.taken) result bytes.now }
        ensures fails { self.new.has_failed ≡ stalls result bytes.now }

        // It takes all or none, and none only where there is no room for them.
        ensures all { IfOk result (λ n. n ≡ length bytes.now) }
        ensures takes_in_room { length self.old.taken + length bytes.now ≤ self.old.capacity → IsOk result }
        ensures room { self.old.capacity ≤ self.new.capacity }
    {
        match self.bytes.extend_from_slice(bytes) {
            Ok(()) => Ok(bytes.len()),
            Err(_) => {
                self.failed = true;
                Err(Failed)
            }
        }
    }
}
