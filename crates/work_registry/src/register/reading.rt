//! A register is read line by line into the indexes of a history, which decide on each call again.

ghost use Rattle.std.specs.Prelude.{◌≡◌, ◌≤◌, ◌<◌, ◌^◌, ◌∷◌, ◌++◌, [], ℕ, List, true, false, length, vec_len, vec_capacity, IsTrue, ◌↔◌, ◌+◌, OnOk, OnErr, IfOk, IfErr};
ghost use Rattle.work_registry.specs.EntryValue.{EntryValue, entry_of};
ghost use Rattle.work_registry.specs.Rows.{rows_of};
ghost use Rattle.work_registry.specs.Reply.{reply_to};
ghost use Rattle.work_registry.specs.RegisterLine.{EntryLine, IsEntryLine};
ghost use Rattle.work_registry.specs.RecordedDecision.{line_of_decision};
ghost use Rattle.work_registry.specs.Numbers.{max_entries};
ghost use Rattle.work_registry.specs.Replay.{is_opening};
ghost use Rattle.work_registry.specs.Register.{count_line, register_text, IsWholeEntry};
ghost use Rattle.std.specs.List.{AllByRecursion};
ghost use Rattle.work_registry.specs.RegisterFaults.{lines, has_end, Tells, IsRefusal};
ghost use Rattle.work_registry.specs.RegisterReading.{IsReadTo, IsStep, IsStop};
ghost use Rattle.work_registry.specs.declared.register.refusal.RegisterRefusal.TheVariants as refusal;

use super::calls::faultless_call;
use super::entry_line::{ReadEntry, RecordedDecision, read_entry, read_faultless};
use super::lines::count_in;
use super::refusal::RegisterRefusal;
use crate::book::store_entry;
use crate::entry::Entry;
use crate::history_index::HistoryIndex;
use crate::reply::Reply;
use cwr_call::Call;
use cwr_field::Memory;
use cwr_record::Status;
use std::alloc::Allocator;

pub(super) fn fault(number: u8, line: u64) -> RegisterRefusal
    ensures { result ≡ refusal.Fault number line }
{
    RegisterRefusal::Fault { number, line }
}

/// Why a text has no line with this number: it is at its end, or no LF ends the line.
pub(super) fn no_line(text: &[u8], number: u64) -> RegisterRefusal
    ensures missing { length text.now ≡ 0 → result ≡ refusal.Fault 2 number }
    ensures unended { 0 < length text.now → result ≡ refusal.Fault 1 number }
{
    if text.is_empty() {
        fault(2, number)
    } else {
        fault(1, number)
    }
}

/// The number of entries that the first line states, given without its LF.
pub(super) fn first_count(line: &[u8], limit: u32) -> Result<u32, RegisterRefusal>
    requires { has_end line.now ≡ false }
    ensures count { IfOk result (λ count. (more : List ℕ) → IsReadTo limit (line.now ++ 10 ∷ more) count [] more) }
    ensures within { IfOk result (λ count. count ≤ limit) }
    ensures fault { IfErr result (λ refusal. (more : List ℕ) → IsRefusal limit (line.now ++ 10 ∷ more) refusal) }
{
    let Some(count) = count_in(line) else {
        return Err(fault(1, 1));
    };
    if count > limit {
        return Err(fault(4, 1));
    }
    Ok(count)
}

/// Whether a status, a work and a version, each 0 where there is none, record this reply.
fn is_recorded(status: Status, work: u32, version: u32, reply: Reply) -> bool
    ensures { (x : EntryLine) → x.status ≡ status → x.work ≡ work → x.version ≡ version → IsTrue result ↔ Tells x reply }
{
    status == reply.status()
        && work == reply.work().unwrap_or(0)
        && version == reply.version().unwrap_or(0)
}

/// The number of the line behind those of the entries so far.
pub(super) fn next_number<A: Allocator + Copy + Drop>(history_index: &HistoryIndex<A>) -> u64
    ensures { result ≡ length history_index.now + 2 }
{
    history_index.len() as u64 + 2
}

/// Adds the call of the next line, where the decision on it is the one that the line records.
///
/// After an error the history index is unchanged. `line` is the line without its LF, and only the contract needs it.
#[inline(always)]
fn enter_recorded<A: Allocator + Copy + Drop>(
    history_index: &mut HistoryIndex<A>,
    line: &[u8],
    told: RecordedDecision,
    call: &Call<A>,
) -> Result<Reply, RegisterRefusal>
    requires room { length history_index.old < max_entries }
    requires one { has_end line.now ≡ false }
    requires says { IsEntryLine (line.now ++ 10 ∷ []) (line_of_decision told call.now) }
    requires only { (x : EntryLine) → IsEntryLine (line.now ++ 10 ∷ []) x → x ≡ line_of_decision told call.now }
    ensures read { OnOk result ((more : List ℕ) → IsStep history_index.old (line.now ++ 10 ∷ more) history_index.new more) }
    ensures entry { IfOk result (λ reply. history_index.new ≡ history_index.old ++ entry_of 0 call.now reply ∷ []) }
    ensures unchanged { OnErr result (history_index.new ≡ history_index.old) }
    ensures fault { IfErr result (λ refusal. (more : List ℕ) → IsStop history_index.old (line.now ++ 10 ∷ more) refusal) }
{
    let number = next_number(history_index);
    if told.index as u64 + 1 != number {
        return Err(fault(2, number));
    }
    let decision = history_index.decide(call);
    if !is_recorded(told.status, told.work, told.version, decision.reply) {
        return Err(fault(3, number));
    }
    history_index.enter(call, decision)?;
    Ok(decision.reply)
}

/// Makes room for one more entry, where entries are kept.
#[inline(always)]
fn make_room<A: Allocator + Copy + Drop>(
    keeps: bool,
    history: &mut Vec<Entry<A>, A>,
) -> Result<(), Memory>
    ensures spare { OnOk result (keeps ≡ true → vec_len history.new < vec_capacity history.new) }
    ensures same { history.new.items ≡ history.old.items }
{
    if keeps {
        history.reserve(1)?;
    }
    Ok(())
}

/// Reads the next line as an entry, and decides on its call again. The entry is kept as the last of the history, where
/// entries are kept.
///
/// - `alloc` is where memory comes from.
/// - `history_index` are the indexes of the entries so far, to which the entry is added.
/// - `line` is the line, without its LF.
/// - `keeps` is whether entries are kept.
/// - `history` are the entries so far, where they are kept.
///
/// After an error `history_index` and `history` are unchanged.
#[inline(always)]
pub(super) fn read_line<A: Allocator + Copy + Drop>(
    alloc: A,
    history_index: &mut HistoryIndex<A>,
    line: &[u8],
    keeps: bool,
    history: &mut Vec<Entry<A>, A>,
) -> Result<(), RegisterRefusal>
    requires room { length history_index.old < max_entries }
    requires one { has_end line.now ≡ false }
    ensures read { OnOk result ((more : List ℕ) → IsStep history_index.old (line.now ++ 10 ∷ more) history_index.new more) }
    ensures longer { OnOk result (length history_index.new ≡ length history_index.old + 1) }
    ensures opening { OnOk result (is_opening history_index.old ≡ true → is_opening history_index.new ≡ true) }
    ensures kept { OnOk result (keeps ≡ true → history.old.items ≡ history_index.old → history.new.items ≡ history_index.new) }
    ensures unchanged { OnErr result (history_index.new ≡ history_index.old) }
    ensures unkept { OnErr result (history.new.items ≡ history.old.items) }
    ensures fault { IfErr result (λ refusal. (more : List ℕ) → IsStop history_index.old (line.now ++ 10 ∷ more) refusal) }
{
    make_room(keeps, history)?;
    let Some(head) = read_faultless(line) else {
        let entry = read_any_line(alloc, history_index, line)?;
        if keeps {
            store_entry(history, entry);
        }
        return Ok(());
    };
    let call = faultless_call(alloc, &head);
    let reply = enter_recorded(history_index, line, head.told, &call)?;
    if keeps {
        store_entry(
            history,
            Entry {
                session: 0,
                call,
                reply,
            },
        );
    }
    Ok(())
}

/// Reads the next line, given without its LF, as an entry with or without faults. It decides on the entry's call again,
/// adds the entry to the history index, and returns it. It is called for lines that `read_faultless` does not take.
///
/// A line is refused if it is not that of an entry (G1), has another index than the next (G2), or records another
/// decision (G3). After an error the history index is unchanged.
#[inline(never)]
fn read_any_line<A: Allocator + Copy + Drop>(
    alloc: A,
    history_index: &mut HistoryIndex<A>,
    line: &[u8],
) -> Result<Entry<A>, RegisterRefusal>
    requires room { length history_index.old < max_entries }
    requires one { has_end line.now ≡ false }
    ensures read { OnOk result ((more : List ℕ) → IsStep history_index.old (line.now ++ 10 ∷ more) history_index.new more) }
    ensures entry { IfOk result (λ entry. history_index.new ≡ history_index.old ++ entry ∷ []) }
    ensures session { IfOk result (λ entry. entry.session ≡ 0) }
    ensures unchanged { OnErr result (history_index.new ≡ history_index.old) }
    ensures fault { IfErr result (λ refusal. (more : List ℕ) → IsStop history_index.old (line.now ++ 10 ∷ more) refusal) }
{
    let Some(entry) = read_entry(alloc, line)? else {
        return Err(fault(1, next_number(history_index)));
    };
    let ReadEntry { told, call } = entry;
    let reply = enter_recorded(history_index, line, told, &call)?;
    Ok(Entry {
        session: 0,
        call,
        reply,
    })
}
