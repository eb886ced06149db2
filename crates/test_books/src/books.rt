//! Twenty calls on ten works, and what a book must hold after each.

ghost use Rattle.std.specs.Prelude.{◌≡◌, ◌↔◌, ◌<◌, ◌+◌, ◌∷◌, [], ℕ, IsTrue, IfOk, OnOk, Some, codes, length, slice_index_or};
ghost use Rattle.work_registry.specs.EntryValue.{EntryValue};
ghost use Rattle.work_registry.specs.declared.refused.HandInError.TheVariants.{Memory};
ghost use Rattle.test_books.specs.Calls.{title, work_numbered, key_of, kind_numbered, call_numbered, reply_numbered, session_numbered, entry_numbered};

use std::alloc::Allocator;
use std::test::Fail;
use test_comparisons::same;
use work_registry::{Book, Call, Claim, Entry, Faults, HandInError, Refused, Reply, WorkKind};

/// The submitter of all calls.
const SUBMITTER: [u8; 11] = *b"PB000000123";

const TITLE: [u8; 60] = *b"SONG ONE                                                    ";

/// The number of calls: the first ten register the works 1 to 10, the others revise them.
pub const CALLS: u16 = 20;

const WORKS: u16 = 10;

/// The work of a call.
fn work_of(number: u16) -> u16
    ensures { result ≡ work_numbered number }
{
    if number > WORKS {
        number.saturating_sub(WORKS)
    } else {
        number
    }
}

/// The submitter's number of a work.
fn key(work: u16) -> [u8; 14]
    ensures { result ≡ key_of work }
{
    let mut key = *b"W00           ";
    key[1] = b'0' + (work / 10 % 10) as u8;
    key[2] = b'0' + (work % 10) as u8;
    key
}

fn kind_of(number: u16) -> WorkKind
    ensures { result ≡ kind_numbered number }
{
    if number > WORKS {
        WorkKind::Rev
    } else {
        WorkKind::Nwr
    }
}

/// The control that the call claims of each right.
fn control_of(number: u16) -> [u64; 3]
    ensures { result ≡ number ∷ number ∷ number ∷ [] }
{
    [number as u64; 3]
}

/// The call with this number, from 1. The ISWC of a work is its number.
///
/// It fails if such a call is not lawful.
pub fn call<A: Allocator>(alloc: A, number: u16) -> Result<Call<A>, Fail>
    ensures { IfOk result (λ c. c ≡ call_numbered number) }
{
    let work = work_of(number);
    let call = Call::of(
        SUBMITTER,
        kind_of(number),
        TITLE,
        key(work),
        Some(work as u64),
        control_of(number),
        Faults::new(Vec::new(alloc)),
    );
    Ok(call.ok_or("no call")?)
}

/// Whether a call is on this work.
fn is_on<A: Allocator>(call: &Call<A>, work: u16) -> bool
    ensures { IsTrue result ↔ ((call.now.submitter ≡ codes "PB000000123") × (call.now.title ≡ title) × (call.now.number ≡ key_of work) × (call.now.iswc ≡ Some work)) }
{
    call.submitter() == SUBMITTER
        && call.title() == TITLE
        && call.number() == key(work)
        && call.iswc() == Some(work as u64)
}

/// Whether this is the call with this number.
fn is_call<A: Allocator>(call: &Call<A>, number: u16) -> bool
    ensures { IsTrue result ↔ (call.now ≡ call_numbered number) }
{
    is_on(call, work_of(number))
        && call.kind() == kind_of(number)
        && call.control() == control_of(number)
        && call.faults().is_empty()
}

/// Whether a refusal is for memory, and hands back the call with this number.
pub fn gives_back<A: Allocator>(refused: &Refused<A>, number: u16) -> bool
    ensures { IsTrue result ↔ (refused.now ≡ record { call = call_numbered number; why = Memory }) }
{
    refused.why == HandInError::Memory && is_call(&refused.call, number)
}

/// The reply to the call with this number after those before it: each work is accepted, and so is its revision.
pub fn reply_to(number: u16) -> Reply
    ensures { result ≡ reply_numbered number }
{
    Reply::Accepted {
        work: work_of(number) as u32,
        version: if number > WORKS { 2 } else { 1 },
    }
}

/// Which of the first `count` calls is the last on a work, if one is.
fn last_on(work: u16, count: u16) -> Option<u16> {
    let revision = work.saturating_add(WORKS);
    if revision <= count {
        Some(revision)
    } else if work <= WORKS.min(count) {
        Some(work)
    } else {
        None
    }
}

/// What the book must say of a work after the first `count` calls.
fn knows<A: Allocator + Copy + Drop>(book: &Book<A>, work: u16, count: u16) -> Result<(), Fail> {
    let last = last_on(work, count);
    let claim = last.map(|number| Claim {
        work: work as u32,
        version: if number > WORKS { 2 } else { 1 },
        control: control_of(number),
    });
    same("claim", &book.claim(&SUBMITTER, &key(work)), &claim)?;
    same(
        "work of the ISWC",
        &book.work_of_iswc(work as u64),
        &last.map(|_| work as u32),
    )?;
    let control = last.map(control_of).unwrap_or([0; 3]);
    same("control", &book.control_of(work as u32), &control)
}

/// The session of the call with this number: the opening up to the call `before`, and session 1 after it.
fn session_of(before: u16, number: u16) -> u32
    ensures { result ≡ session_numbered before number }
{
    if number > before { 1 } else { 0 }
}

/// An entry must be that of the call with this number. Those after the first `before` are of session 1.
fn is_entry<A: Allocator>(entry: &Entry<A>, before: u16, number: u16) -> Result<(), Fail>
    ensures { OnOk result (entry.now ≡ entry_numbered before number) }
{
    same("session", &entry.session(), &session_of(before, number))?;
    same("reply", &entry.reply(), &reply_to(number))?;
    same("its call", &is_call(entry.call(), number), &true)
}

/// The entries of the book must be those of the first `count` calls. Those after the first `before` are of session 1.
fn holds_entries<A: Allocator + Copy + Drop>(
    book: &Book<A>,
    before: u16,
    count: u16,
) -> Result<(), Fail>
    ensures length { OnOk result (length book.now.history ≡ count) }
    ensures entries { OnOk result ((k : ℕ) (d : EntryValue) → k < count → slice_index_or book.now.history k d ≡ entry_numbered before (k + 1)) }
{
    same("length", &book.len(), &(count as usize))?;
    let mut number: u16 = 0;
    for entry in book.history() {
        number = number.saturating_add(1);
        is_entry(entry, before, number)?;
    }
    same("entries", &number, &count)?;
    Ok(())
}

/// What the book must say of each work after the first `count` calls, and of no other work.
fn knows_works<A: Allocator + Copy + Drop>(book: &Book<A>, count: u16) -> Result<(), Fail> {
    for work in 1..12 {
        knows(book, work, count)?;
    }
    Ok(())
}

/// The book, whose limit is 100, must hold the first `count` calls and their replies. Those after the first `before`
/// are of session 1, the others of the opening. It must say what follows from them, and know no other work.
///
/// Every reader of the book is called. It fails at the first that answers something else, and says what.
pub fn holds<A: Allocator + Copy + Drop>(
    book: &Book<A>,
    before: u16,
    count: u16,
) -> Result<(), Fail>
    ensures limit { OnOk result (book.now.limit ≡ 100) }
    ensures length { OnOk result (length book.now.history ≡ count) }
    ensures entries { OnOk result ((k : ℕ) (d : EntryValue) → k < count → slice_index_or book.now.history k d ≡ entry_numbered before (k + 1)) }
{
    same("limit", &book.limit(), &100)?;
    same("opening", &book.is_opening(), &(before >= count))?;
    holds_entries(book, before, count)?;
    knows_works(book, count)
}

/// A book with the first `count` calls, of the opening; `None` if an allocation failed.
///
/// It fails if such a call is not lawful.
pub fn book_of<A: Allocator + Copy + Drop>(alloc: A, count: u16) -> Result<Option<Book<A>>, Fail> {
    let mut book = Book::new(alloc, 100);
    for number in 1..count.saturating_add(1) {
        if book.apply(0, call(alloc, number)?).is_err() {
            return Ok(None);
        }
    }
    Ok(Some(book))
}
