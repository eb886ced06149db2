ghost use Rattle.std.specs.Prelude.{◌≡◌, ◌+◌, ◌≤◌, false, length, IfOk, IfErr, IfSome, OnOk};
ghost use Rattle.byte_streams.specs.GivenBytes.{HasGiven};
ghost use Rattle.work_registry.specs.Register.{IsAudited};
ghost use Rattle.register_store.specs.Auditing.{IsUnaudited};

use crate::reading::ReadBookError;
use crate::taking::{Audit, no_book};
use byte_streams::{Source, consume};
use std::alloc::Allocator;
use work_registry::Auditor;

/// How many bytes of a register the program holds while it reads or audits it, unless a line is longer.
pub const REGISTER_WINDOW: usize = 65_536;

/// How many entries the register of a reader has, where it is that of a history of one registry.
///
/// At most `limit` bytes are taken, through a window of `capacity` bytes. The window grows beyond that only for a
/// longer line. The result is that of [`audit`](work_registry::audit) of all its bytes. Any other text gives its first
/// fault, once it was read to its end.
pub fn audit_source<S: Source, A: Allocator + Copy + Drop>(
    alloc: A,
    reader: &mut S,
    limit: usize,
    capacity: usize,
) -> Result<u64, ReadBookError>
    requires { S.has_failed reader.old ≡ false }
    ensures entries { IfOk result (λ count. IfSome (S.left reader.old) (λ bytes. IsAudited bytes count)) }
    ensures fits { OnOk result (IfSome (S.left reader.old) (λ bytes. length bytes ≤ limit)) }
    ensures going { OnOk result (S.has_failed reader.new ≡ false) }
    ensures unaudited { IfErr result (IsUnaudited limit (S.left reader.old) (S.has_failed reader.new)) }

    // For any result: what was read of the reader is the first of its bytes, and it holds the others.
    ensures read_on { HasGiven (S.left reader.old) (S.left reader.new) }
    ensures few_reads { S.reads reader.new ≤ S.reads reader.old + limit + 1 }
{
    let lines = Audit {
        auditor: Auditor::new(alloc),
    };
    match consume(alloc, reader, limit, capacity, lines) {
        Ok(count) => Ok(count),
        Err(why) => Err(no_book(why)),
    }
}
