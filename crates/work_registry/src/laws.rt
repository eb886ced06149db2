//! What holds in every history of one registry.
//!
//! A law is a function that does nothing. Its contract is what is proved.

ghost use Rattle.std.specs.Prelude.{◌≡◌, ◌≤◌, ℕ, List, [], ◌∷◌, ◌++◌, length, map};
ghost use Rattle.std.specs.List.{AllByRecursion};
ghost use Rattle.work_registry.specs.Numbers.{max_entries};
ghost use Rattle.work_registry.specs.Register.{register_text, opened, IsWholeEntry};
ghost use Rattle.work_registry.specs.RegisterFaults.{IsFault};
ghost use Rattle.cwr_call.specs.CallValue.{CallValue};
ghost use Rattle.work_registry.specs.EntryValue.{EntryValue};
ghost use Rattle.work_registry.specs.Rows.{rows_of};
ghost use Rattle.work_registry.specs.History.{IsHistory, IsShared, IsNamedOnce, Agrees, KeepsNames};
ghost use Rattle.work_registry.specs.Replay.{entry_for, replay};

/// A work that has an ISWC keeps it in every later history.
pub fn works_keep_their_iswc()
    ensures { (history later : List EntryValue) → IsHistory (history ++ later) → KeepsNames (rows_of history) (rows_of (history ++ later)) }
{}

/// No work is claimed beyond the whole, and no two works have the same ISWC. The work of an ISWC is the one that has
/// it.
pub fn histories_are_sound()
    ensures shared { (history : List EntryValue) → IsHistory history → IsShared (rows_of history) }
    ensures named_once { (history : List EntryValue) → IsHistory history → IsNamedOnce (rows_of history) }
    ensures agrees { (history : List EntryValue) → IsHistory history → Agrees (rows_of history) }
{}

/// A history with the entries of further calls is a history, and so is each beginning of one.
pub fn histories_grow()
    ensures empty { IsHistory [] }
    ensures one_more { (history : List EntryValue) (session : ℕ) (call : CallValue) → IsHistory history → IsHistory (history ++ entry_for session history call ∷ []) }
    ensures replayed { (history : List EntryValue) (session : ℕ) (calls : List CallValue) → IsHistory history → IsHistory (history ++ replay session history calls) }
    ensures beginning { (history later : List EntryValue) → IsHistory (history ++ later) → IsHistory history }
{}

/// The register of a history of one registry has no fault, where the history is within the limit.
pub fn registers_have_no_fault()
    ensures { (history : List EntryValue) (limit line number : ℕ) → IsHistory history → AllByRecursion IsWholeEntry history → length history ≤ limit → length history ≤ max_entries
        → IsFault limit (register_text history) line number → ⊥ }
{}

/// A register has one history, up to the sessions of its entries.
pub fn one_register_one_history()
    ensures { (one other : List EntryValue) → length one ≤ max_entries → length other ≤ max_entries → AllByRecursion IsWholeEntry one → AllByRecursion IsWholeEntry other
        → register_text one ≡ register_text other → map opened one ≡ map opened other }
{}
