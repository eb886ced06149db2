//! A register in pieces, whose ends fall at each place of its lines.

ghost use Rattle.std.specs.Prelude.{◌≤◌};

use crate::books::{ONE, TITLE, W1, call, reply};
use crate::registers::ONE_ENTRY;
use std::alloc::Global;
use std::test::Fail;
use test_comparisons::{same, same_bytes};
use work_registry::{Book, Call, Fault, Faults, WorkKind};

/// The smallest room for a piece: that of the fields of fixed place.
const MIN: usize = 173;

/// A bound on the number of pieces of a register here.
const MAX_PIECES: usize = 200;

/// The call of a transaction in which the shares of `faults` writers are wrong.
fn call_with_faults(alloc: Global, faults: u32) -> Result<Call, Fail> {
    let mut told = Vec::new(alloc);
    for sequence in 0..faults {
        told.push(Fault {
            sequence,
            number: 6,
            rtype: *b"SWR",
        })?;
    }
    let told = Faults::new(told);
    Ok(Call::of(ONE, WorkKind::Nwr, TITLE, W1, None, [0; 3], told).ok_or("no call")?)
}

/// A book of calls with these numbers of faults.
fn book_of(alloc: Global, faults: &[u32]) -> Result<Book, Fail> {
    let mut book = Book::new(alloc, 10);
    for faults in faults {
        let call = call_with_faults(alloc, *faults)?;
        let _reply = reply(&mut book, call)?;
    }
    Ok(book)
}

/// The pieces of a register, one behind the other. None has more bytes than the room, and behind the last there is
/// none.
fn joined(book: &Book, alloc: Global, room: usize) -> Result<Vec<u8>, Fail>
    requires { 173 ≤ room }
{
    let mut text = Vec::new(alloc);
    let mut chunks = book.register_chunks(alloc, room)?;
    same_bytes("before the first piece", chunks.chunk(), b"")?;
    for _ in 0..MAX_PIECES {
        chunks.advance();
        same("within the room", &(chunks.chunk().len() <= room), &true)?;
        text.extend_from_slice(chunks.chunk())?;
    }
    same_bytes("behind the last piece", chunks.chunk(), b"")?;
    Ok(text)
}

/// The pieces of a register are this text, for each of these rooms and for one that holds all of it.
fn expect_text(book: &Book, alloc: Global, more: usize, text: &[u8]) -> Result<(), Fail> {
    for more in 0..more.min(1000) {
        same_bytes("in pieces", &joined(book, alloc, MIN + more)?, text)?;
    }
    same_bytes("in one piece", &joined(book, alloc, 65_536)?, text)
}

#[test]
fn no_entry(rt: HostRuntime) -> Result<(), Fail> {
    let book = Book::new(rt.alloc(), 10);
    expect_text(&book, rt.alloc(), 20, b"REG00000000\n")
}

#[test]
fn one_entry(rt: HostRuntime) -> Result<(), Fail> {
    let alloc = rt.alloc();
    let mut book = Book::new(alloc, 10);
    let call = call(alloc, ONE, WorkKind::Nwr, W1, None, 10000)?;
    let _reply = reply(&mut book, call)?;
    expect_text(&book, alloc, 200, ONE_ENTRY.as_bytes())
}

/// The text of a history is the same in pieces of each size, up to two lines and more.
fn expect_written(alloc: Global, faults: &[u32]) -> Result<(), Fail> {
    let book = book_of(alloc, faults)?;
    expect_text(&book, alloc, 400, &book.write_register(alloc)?)
}

#[test]
fn entries_with_faults(rt: HostRuntime) -> Result<(), Fail> {
    let alloc = rt.alloc();
    expect_written(alloc, &[1])?;
    expect_written(alloc, &[1, 2, 1])?;
    expect_written(alloc, &[3, 40, 1, 12])
}

/// The last fault of a line whose faults take several pieces.
#[test]
fn a_line_longer_than_chunks(rt: HostRuntime) -> Result<(), Fail> {
    let alloc = rt.alloc();
    let text = joined(&book_of(alloc, &[100])?, alloc, MIN)?;
    same("bytes", &text.len(), &(12 + 173 + 13 * 100 + 1))?;
    same_bytes(
        "the end",
        text.get(1472..).unwrap_or(b""),
        b"0000009906SWR\n",
    )
}
