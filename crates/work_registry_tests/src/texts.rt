//! Registers, byte for byte.

use crate::books::{Said, W1, accepted, expect_entry, expect_reply, reply};
use crate::registers::{ONE_ENTRY, expect_fault, faulty_call, whole_call};
use std::alloc::{AllocError, Global};
use std::test::Fail;
use test_comparisons::{same, same_bytes, same_text};
use work_registry::{Book, Call, Fault, RegisterRefusal, Reply, audit, read_register};

/// The audit of a register counts `entries` entries.
fn expect_audited(alloc: Global, text: &[u8], entries: u64) -> Result<(), Fail> {
    same(
        "the entries that are audited",
        &audit(alloc, text),
        &Ok(entries),
    )
}

/// Twelve bytes without an entry.
#[test]
fn without_entries(rt: HostRuntime) -> Result<(), Fail> {
    let text = Book::new(rt.alloc(), 10).write_register(rt.alloc())?;
    same_bytes("a register", &text, b"REG00000000\n")?;
    expect_audited(rt.alloc(), &text, 0)
}

/// No line at all, and more than those twelve bytes.
#[test]
fn near_no_entries(rt: HostRuntime) -> Result<(), Fail> {
    expect_fault(rt.alloc(), "no text", b"", Some((2, 1)))?;
    expect_fault(rt.alloc(), "X behind it", b"REG00000000\nX", Some((2, 2)))?;
    expect_fault(rt.alloc(), "CR LF", b"REG00000000\r\n", Some((1, 1)))
}

/// The register of a book after this call.
fn register_after(book: &mut Book, alloc: Global, call: Call) -> Result<Vec<u8>, Fail> {
    reply(book, call)?;
    Ok(book.write_register(alloc)?)
}

/// The register of one call.
fn register_of(alloc: Global, call: Call) -> Result<Vec<u8>, Fail> {
    let mut book = Book::new(alloc, 10);
    register_after(&mut book, alloc, call)
}

/// This text, of which the audit counts one entry.
fn expect_text(alloc: Global, text: &[u8], wanted: &str) -> Result<(), Fail> {
    same_bytes("a register", text, wanted.as_bytes())?;
    expect_audited(alloc, text, 1)
}

fn expect_one_entry(alloc: Global, text: &[u8]) -> Result<(), Fail> {
    same("its length", &text.len(), &186)?;
    expect_text(alloc, text, ONE_ENTRY)
}

/// An accepted claim, twelve bytes and 174.
#[test]
fn with_one_entry(rt: HostRuntime) -> Result<(), Fail> {
    let text = register_of(rt.alloc(), whole_call(rt.alloc(), W1)?)?;
    expect_one_entry(rt.alloc(), &text)
}

/// The register of one rejected call.
fn with_a_fault(alloc: Global) -> Result<Vec<u8>, Fail> {
    register_of(alloc, faulty_call(alloc)?)
}

/// Its text up to the number of its fault.
const UP_TO_THE_FAULT: &str = concat!(
    "REG00000001\nENT00000001PB000000123NWR",
    "SONG ONE                                                    ",
    "W1                       ",
    "000000000000000000010000000000010000RJ000000000000000000000000100000001"
);

/// That text with this number of the fault.
fn faulty_line(alloc: Global, number: &str) -> Result<String, AllocError> {
    [UP_TO_THE_FAULT, number, "SWR\n"].concat(alloc)
}

fn expect_faulty_line(alloc: Global, text: &[u8]) -> Result<(), Fail> {
    same("its length", &text.len(), &(12 + 186 + 1))?;
    let wanted = faulty_line(alloc, "06")?;
    expect_text(alloc, text, &wanted)
}

/// A rejected call has its faults in the line.
#[test]
fn text_with_a_fault(rt: HostRuntime) -> Result<(), Fail> {
    let text = with_a_fault(rt.alloc())?;
    expect_faulty_line(rt.alloc(), &text)
}

/// The text with this number of the fault has this fault itself, or is a register.
fn expect_rule(alloc: Global, number: &str, wanted: Option<(u8, u64)>) -> Result<(), Fail> {
    let text = faulty_line(alloc, number)?;
    expect_fault(alloc, number, text.as_bytes(), wanted)
}

/// There are rules from 1 to 15.
#[test]
fn text_with_another_fault(rt: HostRuntime) -> Result<(), Fail> {
    expect_rule(rt.alloc(), "15", None)?;
    expect_rule(rt.alloc(), "16", Some((1, 2)))?;
    expect_rule(rt.alloc(), "00", Some((1, 2)))
}

/// The register of two works.
fn register_after_two(book: &mut Book, alloc: Global) -> Result<Vec<u8>, Fail> {
    reply(book, whole_call(alloc, W1)?)?;
    register_after(book, alloc, whole_call(alloc, *b"W2            ")?)
}

/// The register of a book that is full with two works.
fn of_two_works(alloc: Global) -> Result<Vec<u8>, Fail> {
    let mut book = Book::new(alloc, 2);
    register_after_two(&mut book, alloc)
}

/// An accepted claim of the opening.
fn claimed(number: [u8; 14], work: u32) -> Said<'static> {
    Said {
        session: 0,
        number,
        faults: &[],
        reply: accepted(work, 1),
    }
}

/// A book that was read has these entries, every one of the opening.
fn expect_entries(book: &Book, wanted: &[Said]) -> Result<(), Fail> {
    for (entry, said) in book.history().iter().zip(wanted) {
        expect_entry(entry, said)?;
    }
    same("the limit", &book.limit(), &10)?;
    same("entries", &book.len(), &wanted.len())?;
    same("the book is an opening", &book.is_opening(), &true)
}

/// It has these entries, and is written again as this text.
fn expect_read(alloc: Global, book: &Book, wanted: &[Said], text: &[u8]) -> Result<(), Fail> {
    expect_entries(book, wanted)?;
    same_bytes("what is written again", &book.write_register(alloc)?, text)
}

/// The text is read as these entries, and written again it is the same.
fn expect_again(alloc: Global, text: &[u8], wanted: &[Said]) -> Result<(), Fail> {
    let book = read_register(alloc, text, 10)?;
    expect_read(alloc, &book, wanted, text)
}

/// What was written is read again: two works of one submitter.
#[test]
fn read_again(rt: HostRuntime) -> Result<(), Fail> {
    let text = of_two_works(rt.alloc())?;
    let works = [claimed(W1, 1), claimed(*b"W2            ", 2)];
    expect_again(rt.alloc(), &text, &works)
}

/// So is a rejected call.
#[test]
fn read_a_fault_again(rt: HostRuntime) -> Result<(), Fail> {
    let text = with_a_fault(rt.alloc())?;
    let faults = [Fault {
        sequence: 1,
        number: 6,
        rtype: *b"SWR",
    }];
    let rejected = Said {
        session: 0,
        number: W1,
        faults: &faults,
        reply: Reply::Rejected,
    };
    expect_again(rt.alloc(), &text, &[rejected])
}

/// So is the text of one entry.
#[test]
fn read_one_entry_again(rt: HostRuntime) -> Result<(), Fail> {
    expect_again(rt.alloc(), ONE_ENTRY.as_bytes(), &[claimed(W1, 1)])
}

#[test]
fn read_above_the_limit(rt: HostRuntime) -> Result<(), Fail> {
    let text = of_two_works(rt.alloc())?;
    let refusal = read_register(rt.alloc(), &text, 1).err();
    let too_many = RegisterRefusal::Fault { number: 4, line: 1 };
    same("why it is refused", &refusal, &Some(too_many))
}

/// A book of these two works answers three calls, and then has five entries.
fn expect_five(book: &mut Book, alloc: Global) -> Result<(), Fail> {
    let first = Reply::Duplicate { work: 1 };
    expect_reply(book, whole_call(alloc, W1)?, first)?;
    let second = Reply::Duplicate { work: 2 };
    expect_reply(book, whole_call(alloc, *b"W2            ")?, second)?;
    expect_reply(book, whole_call(alloc, *b"W3            ")?, accepted(3, 1))?;
    expect_audited(alloc, &book.write_register(alloc)?, 5)
}

/// A book that was read goes on where it ended.
#[test]
fn calls_after_reading(rt: HostRuntime) -> Result<(), Fail> {
    let text = of_two_works(rt.alloc())?;
    let mut book = read_register(rt.alloc(), &text, 10)?;
    expect_five(&mut book, rt.alloc())
}

/// The text of a refusal, which `what` names.
fn expect_told(
    alloc: Global,
    what: &str,
    refusal: RegisterRefusal,
    wanted: &str,
) -> Result<(), Fail> {
    let told = format!(in alloc; "{refusal}")?;
    same_text(what, &told, wanted)
}

#[test]
fn texts_of_refusals(rt: HostRuntime) -> Result<(), Fail> {
    let fault = RegisterRefusal::Fault { number: 3, line: 2 };
    expect_told(rt.alloc(), "a fault", fault, "refused G3 at line 2")?;
    let memory = RegisterRefusal::Memory;
    expect_told(rt.alloc(), "no memory", memory, "memory")
}
