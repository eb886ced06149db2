ghost use Rattle.std.specs.Prelude.{◌≡◌, ◌+◌, ◌<◌, ◌≤◌, ◌↔◌, [], true, false, length, IsTrue, IfOk, IfErr, IfSome, IsErrOf, OnOk};
ghost use Rattle.byte_streams.specs.GivenBytes.{HasGiven};
ghost use Rattle.work_registry.specs.History.{IsHistory};
ghost use Rattle.work_registry.specs.Numbers.{max_entries};
ghost use Rattle.work_registry.specs.Register.{register_text};
ghost use Rattle.work_registry.specs.RegisterFaults.{IsRefusal};
ghost use Rattle.work_registry.specs.Replay.{is_opening};
ghost use Rattle.work_registry.specs.declared.register.refusal.RegisterRefusal.{RegisterRefusal};
ghost use Rattle.work_registry.specs.declared.register.refusal.RegisterRefusal.TheVariants.{Memory as refused};
ghost use Rattle.register_store.specs.declared.reading.ReadBookError.{ReadBookError};

use crate::auditing::REGISTER_WINDOW;
use crate::taking::{Read, no_book};
use byte_streams::{Source, consume};
use cwr_field::MAX_COUNT;
use std::alloc::Allocator;
use thiserror::Error;
use work_registry::{Book, RegisterReader, RegisterRefusal};

/// The greatest number of bytes of a register.
pub const MAX_REGISTER_BYTES: usize = 68_719_476_736;

/// Why no book was read.
#[derive(Clone, Copy, Debug, PartialEq, Eq, Error)]
pub enum ReadBookError {
    /// Memory was refused.
    #[error("stopped: memory")]
    Memory,
    /// A read failed.
    #[error("stopped: read")]
    Read,
    /// There are more bytes than [`MAX_REGISTER_BYTES`].
    #[error("stopped: too long")]
    TooLong,
    /// The bytes are no register: its first fault.
    #[error("{0}")]
    Refused(RegisterRefusal),
}

/// An empty book that takes entries up to the last number, 99,999,999.
pub fn new_book<A: Allocator + Copy + Drop>(alloc: A) -> Book<A>
    ensures empty { result.history ≡ [] }
    ensures limit { result.limit ≡ max_entries }
{
    Book::new(alloc, MAX_COUNT)
}

/// The book of the register that a reader gives. All its entries are of the opening, session 0, and its limit is
/// 99,999,999 entries.
///
/// The register is read to its end, unless a read fails, memory is refused or there are too many bytes. At most
/// 68,719,476,738 reads are made.
pub fn read_book<S: Source, A: Allocator + Copy + Drop>(
    alloc: A,
    reader: &mut S,
) -> Result<Book<A>, ReadBookError>
    requires { S.has_failed reader.old ≡ false }
    ensures text { IfOk result (λ book. IfSome (S.left reader.old) (λ bytes. bytes ≡ register_text book.history)) }
    ensures lawful { IfOk result (λ book. IsHistory book.history) }
    ensures opening { IfOk result (λ book. IsTrue (is_opening book.history)) }
    ensures limit { IfOk result (λ book. book.limit ≡ max_entries) }
    ensures want { IsErrOf result (ReadBookError.Refused refused) → ⊥ }
    ensures fault { (r : RegisterRefusal) → IsErrOf result (ReadBookError.Refused r) → IfSome (S.left reader.old) (λ bytes. IsRefusal max_entries bytes r) }
    ensures too_long { IsErrOf result ReadBookError.TooLong → IfSome (S.left reader.old) (λ bytes. 68719476736 < length bytes) }
    ensures failed { IsErrOf result ReadBookError.Read ↔ (S.has_failed reader.new ≡ true) }

    // For any result: what was read of the reader is the first of its bytes, and it holds the others.
    ensures read_on { HasGiven (S.left reader.old) (S.left reader.new) }
    ensures few_reads { S.reads reader.new ≤ S.reads reader.old + 68719476738 }
{
    let lines = Read {
        reader: RegisterReader::new(alloc, MAX_COUNT),
    };
    match consume(alloc, reader, MAX_REGISTER_BYTES, REGISTER_WINDOW, lines) {
        Ok(book) => Ok(book),
        Err(why) => Err(no_book(why)),
    }
}
