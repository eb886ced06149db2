//! A text takes the place of a file, and then the drafts of the followers take their names.

ghost use Rattle.std.specs.Prelude.{◌≡◌, ◌<◌, ◌≤◌, ◌^◌, ◌⊎◌, Some, true, false, length, take, IfOk, IfSome, IfErr, IsErr, OnOk};
ghost use Rattle.atomic_file.specs.Names.{Names, with_file, drafting, placing, HasNoneBeside};
ghost use Rattle.atomic_file.specs.Looking.{Only, Becomes, MayBecome, Stays};
ghost use Rattle.atomic_file.specs.Keeping.{OldOrNew, FileFirst, SinceThen, Leads, MayFollow, AreFollowing, AreSynced, AreThere};

use crate::chunks::OneChunk;
use crate::following::{drop_followers, name_followers};
use crate::{CallFailed, Chunks, KeepError, Storage};

/// Replaces the file under the name by this text, and then puts each follower in place. Before that the drafts of the
/// followers are synced to disk.
///
/// At every moment, and after a crash at any moment, whoever looks under the names finds the old file or the complete
/// text. A new follower is found only where the text is. Where the text is not kept, the followers stay as they are,
/// and their drafts are removed.
pub fn keep<P: Storage>(storage: &mut P, text: &[u8]) -> Result<(), KeepError>
    requires works { P.has_failed storage.old ≡ false }
    // What lies under the names is on disk.
    requires settled { IfSome (P.told storage.old) (λ s. Only s.names (P.may_find storage.old)) }
    // Whoever looks, and whenever, finds all as it was, or the complete text and each follower as it was or complete.
    ensures any_moment { IfSome (P.told storage.old) (λ s. SinceThen (P.found storage.old) (P.found storage.new) (FileFirst s.names text.now)) }
    ensures whole { IfSome (P.told storage.old) (λ s. SinceThen (P.found storage.old) (P.found storage.new) (λ c. (c ≡ s.names) ⊎ MayFollow s (with_file text.now s.names) c)) }
    // At `Ok` the text is there, and no crash removes it.
    ensures kept { OnOk result (Leads (λ s t. t.names.file ≡ Some text.now) (P.told storage.old) (P.told storage.new)) }
    ensures stays { OnOk result (IfSome (P.told storage.old) (λ s. (c : Names) → P.may_find storage.new c → c.file ≡ Some text.now)) }
    // At `Ok` each follower is in place or is refused; else none is in place, and none of their drafts is left.
    ensures each { OnOk result (Leads (λ s t. AreFollowing (length s.waiting) (record s { names = with_file text.now s.names; draft = text.now }) t) (P.told storage.old) (P.told storage.new)) }
    // No crash removes those that are in place.
    ensures there { OnOk result (Leads (AreThere (P.may_find storage.new)) (P.told storage.old) (P.told storage.new)) }
    ensures withheld { IsErr result → IfSome (P.told storage.old) (λ s. SinceThen (P.found storage.old) (P.found storage.new) (λ c. c.followers ≡ s.names.followers)) }
    ensures dropped { IsErr result → Leads (λ _ t. HasNoneBeside t) (P.told storage.old) (P.told storage.new) }
    // Of a text that was not kept, just `sent` bytes went into the draft. It does not give up by itself.
    ensures few { IfErr result (λ e. e.sent ≤ length text.now) }
    ensures sent { IfErr result (λ e. Leads (λ s t. t.draft ≡ take e.sent text.now) (P.told storage.old) (P.told storage.new)) }
    ensures failed { IsErr result → P.has_failed storage.new ≡ true }
{
    keep_chunks(storage, &mut OneChunk::new(text))
}

/// Replaces the file under the name by a text that comes in chunks, and then puts each follower in place, as [`keep`]
/// does.
///
/// The file gets the bytes of the text that are still to come. Not even the first of them shows under the name before
/// the last is in the draft.
pub fn keep_chunks<P: Storage, T: Chunks>(storage: &mut P, text: &mut T) -> Result<(), KeepError>
    requires works { P.has_failed storage.old ≡ false }
    // What lies under the names is on disk.
    requires settled { IfSome (P.told storage.old) (λ s. Only s.names (P.may_find storage.old)) }
    requires short { length (T.left text.old) < 2 ^ 63 }
    // Whoever looks, and whenever, finds all as it was, or the complete text and each follower as it was or complete.
    ensures any_moment { IfSome (P.told storage.old) (λ s. SinceThen (P.found storage.old) (P.found storage.new) (FileFirst s.names (T.left text.old))) }
    ensures whole { IfSome (P.told storage.old) (λ s. SinceThen (P.found storage.old) (P.found storage.new) (λ c. (c ≡ s.names) ⊎ MayFollow s (with_file (T.left text.old) s.names) c)) }
    // At `Ok` the text is there, and no crash removes it.
    ensures kept { OnOk result (Leads (λ s t. t.names.file ≡ Some (T.left text.old)) (P.told storage.old) (P.told storage.new)) }
    ensures stays { OnOk result (IfSome (P.told storage.old) (λ s. (c : Names) → P.may_find storage.new c → c.file ≡ Some (T.left text.old))) }
    // At `Ok` each follower is in place or is refused; else none is in place, and none of their drafts is left.
    ensures each { OnOk result (Leads (λ s t. AreFollowing (length s.waiting) (record s { names = with_file (T.left text.old) s.names; draft = T.left text.old }) t) (P.told storage.old) (P.told storage.new)) }
    // No crash removes those that are in place.
    ensures there { OnOk result (Leads (AreThere (P.may_find storage.new)) (P.told storage.old) (P.told storage.new)) }
    ensures withheld { IsErr result → IfSome (P.told storage.old) (λ s. SinceThen (P.found storage.old) (P.found storage.new) (λ c. c.followers ≡ s.names.followers)) }
    ensures dropped { IsErr result → Leads (λ _ t. HasNoneBeside t) (P.told storage.old) (P.told storage.new) }
    // Of a text that was not kept, just `sent` bytes went into the draft. It does not give up by itself.
    ensures few { IfErr result (λ e. e.sent ≤ length (T.left text.old)) }
    ensures sent { IfErr result (λ e. Leads (λ s t. t.draft ≡ take e.sent (T.left text.old)) (P.told storage.old) (P.told storage.new)) }
    ensures failed { IsErr result → P.has_failed storage.new ≡ true }
{
    storage.sync_followers();
    keep_synced(storage, text)
}

/// Keeps a text as [`keep_chunks`] does, where the drafts of the followers are on disk.
fn keep_synced<P: Storage, T: Chunks>(storage: &mut P, text: &mut T) -> Result<(), KeepError>
    requires works { P.has_failed storage.old ≡ false }
    requires settled { IfSome (P.told storage.old) (λ s. Only s.names (P.may_find storage.old)) }
    requires synced { IfSome (P.told storage.old) AreSynced }
    requires short { length (T.left text.old) < 2 ^ 63 }
    ensures any_moment { IfSome (P.told storage.old) (λ s. SinceThen (P.found storage.old) (P.found storage.new) (FileFirst s.names (T.left text.old))) }
    ensures whole { IfSome (P.told storage.old) (λ s. SinceThen (P.found storage.old) (P.found storage.new) (λ c. (c ≡ s.names) ⊎ MayFollow s (with_file (T.left text.old) s.names) c)) }
    ensures kept { OnOk result (Leads (λ s t. t.names.file ≡ Some (T.left text.old)) (P.told storage.old) (P.told storage.new)) }
    ensures stays { OnOk result (IfSome (P.told storage.old) (λ s. (c : Names) → P.may_find storage.new c → c.file ≡ Some (T.left text.old))) }
    ensures each { OnOk result (Leads (λ s t. AreFollowing (length s.waiting) (record s { names = with_file (T.left text.old) s.names; draft = T.left text.old }) t) (P.told storage.old) (P.told storage.new)) }
    ensures there { OnOk result (Leads (AreThere (P.may_find storage.new)) (P.told storage.old) (P.told storage.new)) }
    ensures withheld { IsErr result → IfSome (P.told storage.old) (λ s. SinceThen (P.found storage.old) (P.found storage.new) (λ c. c.followers ≡ s.names.followers)) }
    ensures dropped { IsErr result → Leads (λ _ t. HasNoneBeside t) (P.told storage.old) (P.told storage.new) }
    ensures few { IfErr result (λ e. e.sent ≤ length (T.left text.old)) }
    ensures sent { IfErr result (λ e. Leads (λ s t. t.draft ≡ take e.sent (T.left text.old)) (P.told storage.old) (P.told storage.new)) }
    ensures failed { IsErr result → P.has_failed storage.new ≡ true }
{
    match replace_chunks(storage, text) {
        Ok(()) => {
            name_followers(storage);
            Ok(())
        }
        Err(stopped) => {
            drop_followers(storage);
            Err(stopped)
        }
    }
}

/// Replaces the file under the name by this text. The followers stay as they are.
///
/// At every moment, and after a crash at any moment, whoever looks under the name finds the old file or the complete
/// text.
pub fn replace<P: Storage>(storage: &mut P, text: &[u8]) -> Result<(), KeepError>
    requires works { P.has_failed storage.old ≡ false }
    // What lies under the names is on disk.
    requires settled { IfSome (P.told storage.old) (λ s. Only s.names (P.may_find storage.old)) }
    // Whoever looks, and whenever, finds the old file or the new one, each complete.
    ensures any_moment { IfSome (P.told storage.old) (λ s. SinceThen (P.found storage.old) (P.found storage.new) (OldOrNew s.names text.now)) }
    ensures after { IfSome (P.told storage.old) (λ s. (c : Names) → P.may_find storage.new c → OldOrNew s.names text.now c) }
    // At `Ok` the new one is there, and no crash removes it.
    ensures kept { OnOk result (Becomes (λ s. record s { names = with_file text.now s.names; draft = text.now }) (P.told storage.old) (P.told storage.new)) }
    ensures stays { OnOk result (IfSome (P.told storage.old) (λ s. (c : Names) → P.may_find storage.new c → c.file ≡ Some text.now)) }
    ensures went_on { OnOk result (P.has_failed storage.new ≡ false) }
    // Of a text that was not kept, just `sent` bytes went into the draft. It does not give up by itself.
    ensures few { IfErr result (λ e. e.sent ≤ length text.now) }
    ensures sent { IfErr result (λ e. Leads (λ s t. t.draft ≡ take e.sent text.now) (P.told storage.old) (P.told storage.new)) }
    ensures failed { IsErr result → P.has_failed storage.new ≡ true }
{
    replace_chunks(storage, &mut OneChunk::new(text))
}

/// Replaces the file under the name by a text that comes in chunks, as [`replace`] does. The followers stay as they
/// are.
///
/// The file gets the bytes of the text that are still to come.
pub fn replace_chunks<P: Storage, T: Chunks>(storage: &mut P, text: &mut T) -> Result<(), KeepError>
    requires works { P.has_failed storage.old ≡ false }
    // What lies under the names is on disk.
    requires settled { IfSome (P.told storage.old) (λ s. Only s.names (P.may_find storage.old)) }
    requires short { length (T.left text.old) < 2 ^ 63 }
    // Whoever looks, and whenever, finds the old file or the new one, each complete.
    ensures any_moment { IfSome (P.told storage.old) (λ s. SinceThen (P.found storage.old) (P.found storage.new) (OldOrNew s.names (T.left text.old))) }
    ensures after { IfSome (P.told storage.old) (λ s. (c : Names) → P.may_find storage.new c → OldOrNew s.names (T.left text.old) c) }
    // At `Ok` the new one is there, and no crash removes it.
    ensures kept { OnOk result (Becomes (λ s. record s { names = with_file (T.left text.old) s.names; draft = T.left text.old }) (P.told storage.old) (P.told storage.new)) }
    ensures stays { OnOk result (IfSome (P.told storage.old) (λ s. (c : Names) → P.may_find storage.new c → c.file ≡ Some (T.left text.old))) }
    ensures went_on { OnOk result (P.has_failed storage.new ≡ false) }
    // Of a text that was not kept, just `sent` bytes went into the draft. It does not give up by itself.
    ensures few { IfErr result (λ e. e.sent ≤ length (T.left text.old)) }
    ensures sent { IfErr result (λ e. Leads (λ s t. t.draft ≡ take e.sent (T.left text.old)) (P.told storage.old) (P.told storage.new)) }
    ensures failed { IsErr result → P.has_failed storage.new ≡ true }
{
    let sent = match write_draft(storage, text) {
        Ok(all) => all,
        Err(stopped) => {
            storage.drop_draft();
            return Err(stopped);
        }
    };
    match place_draft(storage) {
        Ok(()) => Ok(()),
        Err(CallFailed) => {
            storage.drop_draft();
            Err(KeepError { sent })
        }
    }
}

/// Writes a new draft of this text, and returns how many bytes it has.
fn write_draft<P: Storage, T: Chunks>(storage: &mut P, text: &mut T) -> Result<u64, KeepError>
    requires works { P.has_failed storage.old ≡ false }
    requires settled { IfSome (P.told storage.old) (λ s. Only s.names (P.may_find storage.old)) }
    requires short { length (T.left text.old) < 2 ^ 63 }
    ensures any_moment { IfSome (P.told storage.old) (λ s. SinceThen (P.found storage.old) (P.found storage.new) (λ c. c ≡ s.names)) }
    ensures after { IfSome (P.told storage.old) (λ s. Only s.names (P.may_find storage.new)) }
    ensures whole { OnOk result (Becomes (λ s. record s { draft = T.left text.old }) (P.told storage.old) (P.told storage.new)) }
    ensures all { IfOk result (λ n. n ≡ length (T.left text.old)) }
    ensures went_on { OnOk result (P.has_failed storage.new ≡ false) }
    ensures few { IfErr result (λ e. e.sent ≤ length (T.left text.old)) }
    ensures sent { IfErr result (λ e. Becomes (λ s. record s { draft = take e.sent (T.left text.old) }) (P.told storage.old) (P.told storage.new)) }
    ensures failed { IsErr result → P.has_failed storage.new ≡ true }
{
    if let Err(CallFailed) = storage.begin_draft() {
        return Err(KeepError { sent: 0 });
    }
    let mut sent = 0;
    loop {
        text.advance();
        let chunk = text.chunk();
        if chunk.is_empty() {
            return Ok(sent);
        }
        if let Err(stopped) = write_chunk(storage, chunk) {
            return Err(KeepError {
                sent: sent + stopped.sent,
            });
        }
        sent += chunk.len() as u64;
    }
}

/// Writes a chunk of the text at the end of the draft.
fn write_chunk<P: Storage>(storage: &mut P, chunk: &[u8]) -> Result<(), KeepError>
    requires works { P.has_failed storage.old ≡ false }
    ensures now { Stays (P.may_find storage.old) (P.may_find storage.new) }
    ensures time { SinceThen (P.found storage.old) (P.found storage.new) (P.may_find storage.old) }
    ensures whole { OnOk result (Becomes (drafting chunk.now) (P.told storage.old) (P.told storage.new)) }
    ensures went_on { OnOk result (P.has_failed storage.new ≡ false) }
    ensures few { IfErr result (λ e. e.sent ≤ length chunk.now) }
    ensures sent { IfErr result (λ e. Becomes (drafting (take e.sent chunk.now)) (P.told storage.old) (P.told storage.new)) }
    ensures failed { IsErr result → P.has_failed storage.new ≡ true }
{
    let mut sent = 0;
    while sent < chunk.len() {
        match storage.write_some(&chunk[sent..]) {
            Ok(0) | Err(_) => return Err(KeepError { sent: sent as u64 }),
            Ok(n) => sent += n,
        }
    }
    Ok(())
}

/// Puts a complete draft in the place of the file. A draft that could not be synced to disk does not get the name.
fn place_draft<P: Storage>(storage: &mut P) -> Result<(), CallFailed>
    requires works { P.has_failed storage.old ≡ false }
    requires settled { IfSome (P.told storage.old) (λ s. Only s.names (P.may_find storage.old)) }
    ensures any_moment { IfSome (P.told storage.old) (λ s. SinceThen (P.found storage.old) (P.found storage.new) (OldOrNew s.names s.draft)) }
    ensures after { IfSome (P.told storage.old) (λ s. (c : Names) → P.may_find storage.new c → OldOrNew s.names s.draft c) }
    ensures told { MayBecome placing (P.told storage.old) (P.told storage.new) }
    ensures kept { OnOk result (Becomes placing (P.told storage.old) (P.told storage.new)) }
    ensures stays { OnOk result (IfSome (P.told storage.old) (λ s. (c : Names) → P.may_find storage.new c → c.file ≡ Some s.draft)) }
    ensures went_on { OnOk result (P.has_failed storage.new ≡ false) }
    ensures failed { IsErr result → P.has_failed storage.new ≡ true }
{
    storage.sync_draft()?;
    storage.put_in_place()?;
    storage.sync_name()
}
