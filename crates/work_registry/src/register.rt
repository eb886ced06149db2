//! The register of a book: its history as a text, in lines that LF ends.
//!
//! Line 1 is `REG` and the number of entries in eight digits. Each entry has a line: its index, its call, the reply,
//! and the call's faults. Sessions are not written. A reader of a register hands in each call again and compares the
//! reply, so that an outside auditor can check every decision.

ghost use Rattle.std.specs.Prelude.{◌≡◌, ◌≤◌, List, length, map, IsTrue, OnOk, IfOk, IfErr, MatchResult};
ghost use Rattle.work_registry.specs.EntryValue.{EntryValue};
ghost use Rattle.work_registry.specs.History.{IsHistory};
ghost use Rattle.work_registry.specs.Numbers.{max_entries};
ghost use Rattle.work_registry.specs.Replay.{is_opening};
ghost use Rattle.work_registry.specs.Register.{register_text, opened, IsAudited, IsWholeEntry};
ghost use Rattle.work_registry.specs.declared.register.refusal.RegisterRefusal.TheVariants.{Memory as refused};
ghost use Rattle.std.specs.List.{AllByRecursion};
ghost use Rattle.work_registry.specs.RegisterFaults.{IsRefusal};

mod auditor;
mod calls;
mod chunks;
mod columns;
mod entry_line;
mod faults;
mod fields;
mod head;
mod line_reader;
mod lines;
mod reading;
mod refusal;
mod register_reader;
mod writing;

use crate::book::Book;
pub use auditor::Auditor;
pub use chunks::RegisterChunks;
use chunks::register_of;
use cwr_field::{MAX_COUNT, Memory};
pub use refusal::RegisterRefusal;
pub use register_reader::RegisterReader;
use std::alloc::Allocator;

impl<A: Allocator + Copy + Drop> Book<A> {
    /// The register of this book: the text of its history.
    ///
    /// All memory is asked for at once.
    pub fn write_register(&self, alloc: A) -> Result<Vec<u8, A>, Memory>
        ensures text { IfOk result (λ text. text.items ≡ register_text self.now.history) }
        // This is what [`read_register`] requires of a history that it reads back.
        ensures whole { OnOk result (AllByRecursion IsWholeEntry self.now.history) }
    {
        register_of(alloc, self.history())
    }
}

/// Reads the book of a register, with this limit. All its entries are of the opening, session 0.
///
/// A text that is no register of a history of one registry gives its first fault, and so does one with more entries
/// than the limit. That is the fault of the first faulty line, and of that line's faults the least. The bytes are gone
/// over once.
///
/// # Examples
///
/// ```rust
/// /// Writes the register of the book and reads it again, as the next run would.
/// fn read_again(alloc: Global, book: &Book) -> Option<Book> {
///     let register = book.write_register(alloc).ok()?;
///     read_register(alloc, &register, 1000).ok()
/// }
/// ```
pub fn read_register<A: Allocator + Copy + Drop>(
    alloc: A,
    bytes: &[u8],
    limit: u32,
) -> Result<Book<A>, RegisterRefusal>
    requires least { 1 ≤ limit }
    requires most { limit ≤ max_entries }
    ensures text { IfOk result (λ book. bytes.now ≡ register_text book.history) }
    ensures lawful { IfOk result (λ book. IsHistory book.history) }
    ensures opening { IfOk result (λ book. IsTrue (is_opening book.history)) }
    ensures fits { IfOk result (λ book. length book.history ≤ limit) }
    ensures whole { IfOk result (λ book. AllByRecursion IsWholeEntry book.history) }
    // What was written of a history within the limit is read back, and then only memory is refused.
    ensures again { (history : List EntryValue) → IsHistory history → AllByRecursion IsWholeEntry history → length history ≤ limit → bytes.now ≡ register_text history
        → MatchResult result (λ book. book.history ≡ map opened history) (λ refusal. refusal ≡ refused) }
    ensures limit { IfOk result (λ book. book.limit ≡ limit) }
    ensures fault { IfErr result (IsRefusal limit bytes.now) }
{
    let book = RegisterReader::new(alloc, limit).finish(bytes)?;
    // Reading its history makes known to the check what holds in every book.
    let _history = book.history();
    Ok(book)
}

/// How many entries a register has, where it is that of a history of one registry.
///
/// Any other text gives its first fault: that of the first faulty line, and of that line's faults the least. No entry
/// is kept, only what is needed to decide on the next one.
///
/// # Examples
///
/// The register of a book with five entries.
///
/// ```rust
/// let entries = audit(alloc, &book.write_register(alloc)?).ok();
/// same("the entries that are audited", &entries, &Some(5))?;
/// ```
pub fn audit<A: Allocator + Copy + Drop>(alloc: A, bytes: &[u8]) -> Result<u64, RegisterRefusal>
    ensures entries { IfOk result (IsAudited bytes.now) }
    ensures fault { IfErr result (IsRefusal max_entries bytes.now) }
{
    Auditor::new(alloc).finish(bytes)
}
