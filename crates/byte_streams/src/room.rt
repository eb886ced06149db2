ghost use Rattle.std.specs.Prelude.{◌≡◌, ◌<◌, ◌≤◌, ◌-◌, ◌↔◌, [], Some, true, false, min, length, IfOk, IsOk, IsErr};
ghost use Rattle.std.specs.Io.KnownBytes.{WriteAppends};
ghost use Rattle.byte_streams.specs.Bytes.{stalls};

use crate::{Failed, Memory, Sink};
use std::alloc::{Allocator, Global};
use std::marker::Model;

/// A sink that keeps what it takes in memory, up to a size.
#[derive_where(Debug)]
#[derive(Drop)]
pub struct Room<A: Allocator = Global> {
    bytes: Vec<u8, A>,
    size: usize,
    fails: bool,
    failed: bool,
}

impl<A: Allocator> Model for Room<A> {
    ghost use Rattle.std.specs.Prelude.{◌≤◌, vec_len, vec_capacity};
    ghost use Rattle.byte_streams.specs.Room.{RoomState};

    ghost Value = { RoomState };

    ghost view = { λ r. record {
      taken = r.bytes.items;
      size = r.size;
      fails = r.fails;
      has_failed = r.failed;
    } };

    ghost invariant = { λ r. (vec_len r.bytes ≤ r.size) × (r.size ≤ vec_capacity r.bytes) };
}

impl<A: Allocator> Room<A> {
    /// A sink that takes `size` bytes in all. When it is full it fails; where `fails` is false, it takes 0 bytes
    /// instead.
    ///
    /// All its memory is asked for here. No later call asks for any.
    pub fn new(alloc: A, size: usize, fails: bool) -> Result<Room<A>, Memory>
        ensures empty { IfOk result (λ r. r.taken ≡ []) }
        ensures size { IfOk result (λ r. r.size ≡ size) }
        ensures fails { IfOk result (λ r. r.fails ≡ fails) }
        ensures works { IfOk result (λ r. r.has_failed ≡ false) }
        ensures none_needed { size ≡ 0 → IsOk result }
    {
        Ok(Room {
            bytes: Vec::with_capacity(alloc, size)?,
            size,
            fails,
            failed: false,
        })
    }

    /// What it took, also after a failure.
    pub fn bytes(&self) -> &[u8]
        ensures taken { result.now ≡ self.now.taken }
        ensures within { length result.now ≤ self.now.size }
    {
        self.bytes.as_slice()
    }
}

impl<A: Allocator> Sink for Room<A> {
    ghost taken = { λ r. Some r.taken };

    ghost has_failed = { λ r. r.has_failed };

    fn failed(&self) -> bool {
        self.failed
    }

    /// Takes as many of the bytes as there is room for.
    fn write_some(&mut self, bytes: &[u8]) -> Result<usize, Failed>
        requires { self.old.has_failed ≡ false }
        ensures bound { IfOk result (λ n. n ≤ length bytes.now) }
        ensures bytes { WriteAppends (Some self.old.taken) (Some self.new.taken) result bytes.now }
        ensures fails { self.new.has_failed ≡ stalls result bytes.now }

        // How many bytes it takes, when it fails, and that both rules stay.
        ensures amount { IfOk result (λ n.
            n ≡ min (length bytes.now) (self.old.size - length self.old.taken)) }
        ensures fails_when_full { IsErr result ↔
            ((self.old.fails ≡ true) × (self.old.size ≤ length self.old.taken)
            × (0 < length bytes.now)) }
        ensures same { (self.new.size ≡ self.old.size) × (self.new.fails ≡ self.old.fails) }
    {
        let n = bytes.len().min(self.size - self.bytes.len());
        if n == 0 && !bytes.is_empty() {
            self.failed = true;
            return if self.fails { Err(Failed) } else { Ok(0) };
        }
        let Ok(()) = self.bytes.extend_from_slice(&bytes[..n]) else {
            unreachable!()
        };
        Ok(n)
    }
}
