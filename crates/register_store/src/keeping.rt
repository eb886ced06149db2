ghost use Rattle.std.specs.Prelude.{◌≡◌, ◌≤◌, ◌⊎◌, Some, true, false, length, take, IfSome, IfErr, IsErr, IsErrOf, OnOk};
ghost use Rattle.atomic_file.specs.Names.{Names, with_file, dropping_followers, HasNoneBeside};
ghost use Rattle.atomic_file.specs.Looking.{Only, Becomes, Stays};
ghost use Rattle.atomic_file.specs.Keeping.{FileFirst, SinceThen, Leads, MayFollow, AreFollowing, AreThere};
ghost use Rattle.work_registry.specs.Register.{register_text};
ghost use Rattle.atomic_file.specs.declared.failed.KeepError.{KeepError};

use atomic_file::{Chunks, KeepError, Storage, drop_followers, keep_chunks};
use cwr_field::Memory;
use std::alloc::Allocator;
use thiserror::Error;
use work_registry::{Book, RegisterChunks};

/// How many bytes of a register are held while it is written.
const CHUNK: usize = 65_536;

/// The register of a book, as a text that comes in chunks.
#[derive(Drop)]
struct Register<'a, A: Allocator + Copy + Drop> {
    chunks: RegisterChunks<'a, A>,
}

impl<A: Allocator + Copy + Drop> Chunks for Register<'_, A> {
    ghost held = { λ register. register.chunks.held };

    ghost left = { λ register. register.chunks.left };

    fn advance(&mut self) {
        self.chunks.advance();
    }

    fn chunk(&self) -> &[u8] {
        self.chunks.chunk()
    }
}

/// Why a register was not kept. Its file is then the old one. Only where a call on the new file's name failed last, it
/// may be the new one.
#[derive(Clone, Copy, Debug, PartialEq, Eq, Error)]
pub enum KeepRegisterError {
    /// Memory for its text was refused. Nothing was written.
    #[error("memory")]
    Memory,
    /// A call of the storage failed.
    #[error("{0}")]
    Stopped(KeepError),
}

/// Keeps the register of a book under the name of a storage, and then puts the followers in place. These are the
/// acknowledgements of the book's entries, whose drafts are synced to disk before.
///
/// At every moment, and after a crash at any moment, whoever looks under the names finds the old register or the
/// complete new one. A new acknowledgement is found only where the new register is. Where the register is not kept, the
/// acknowledgements stay as they are, and their drafts are removed.
pub fn keep_register<P: Storage, A: Allocator + Copy + Drop>(
    storage: &mut P,
    alloc: A,
    book: &Book<A>,
) -> Result<(), KeepRegisterError>
    requires works { P.has_failed storage.old ≡ false }
    // What lies under the names is on disk.
    requires settled { IfSome (P.told storage.old) (λ s. Only s.names (P.may_find storage.old)) }

    // Nobody finds an acknowledgement without its register, and each that is found is complete.
    ensures any_moment { IfSome (P.told storage.old) (λ s. SinceThen (P.found storage.old) (P.found storage.new) (FileFirst s.names (register_text book.now.history))) }
    ensures whole { IfSome (P.told storage.old) (λ s. SinceThen (P.found storage.old) (P.found storage.new) (λ c. (c ≡ s.names) ⊎ MayFollow s (with_file (register_text book.now.history) s.names) c)) }

    // At `Ok` the register is there, and no crash removes it.
    ensures kept { OnOk result (Leads (λ s t. t.names.file ≡ Some (register_text book.now.history)) (P.told storage.old) (P.told storage.new)) }
    ensures stays { OnOk result (IfSome (P.told storage.old) (λ s. (c : Names) → P.may_find storage.new c → c.file ≡ Some (register_text book.now.history))) }

    // At `Ok` each acknowledgement is in place or is refused; else none is in place, and none of their drafts is left.
    ensures each { OnOk result (Leads (λ s t. AreFollowing (length s.waiting) (record s { names = with_file (register_text book.now.history) s.names; draft = register_text book.now.history }) t) (P.told storage.old) (P.told storage.new)) }
    // No crash removes those that are in place.
    ensures there { OnOk result (Leads (AreThere (P.may_find storage.new)) (P.told storage.old) (P.told storage.new)) }
    ensures withheld { IsErr result → IfSome (P.told storage.old) (λ s. SinceThen (P.found storage.old) (P.found storage.new) (λ c. c.followers ≡ s.names.followers)) }
    ensures dropped { IsErr result → Leads (λ _ t. HasNoneBeside t) (P.told storage.old) (P.told storage.new) }

    // Where memory was refused, nothing was written: the state of the storage and what may be found are as they were,
    // except that these drafts are removed.
    ensures unwritten { IsErrOf result KeepRegisterError.Memory → Becomes dropping_followers (P.told storage.old) (P.told storage.new) × Stays (P.may_find storage.old) (P.may_find storage.new) }

    // Of a register that was not kept, just `sent` bytes went into the draft. It does not give up by itself.
    ensures sent { IfErr result (λ e. (n : KeepError) → e ≡ KeepRegisterError.Stopped n → (n.sent ≤ length (register_text book.now.history)) × Leads (λ s t. t.draft ≡ take n.sent (register_text book.now.history)) (P.told storage.old) (P.told storage.new)) }
    ensures failed { IsErr result → (P.has_failed storage.new ≡ true) ⊎ (result ≡ Err KeepRegisterError.Memory) }
{
    let Ok(chunks) = book.register_chunks(alloc, CHUNK) else {
        drop_followers(storage);
        return Err(KeepRegisterError::Memory);
    };
    match keep_chunks(storage, &mut Register { chunks }) {
        Ok(()) => Ok(()),
        Err(stopped) => Err(KeepRegisterError::Stopped(stopped)),
    }
}
