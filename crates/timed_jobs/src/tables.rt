//! A register audited, and printed as tables and as a summary.

use crate::chance::Chance;
use crate::digest::Digest;
use crate::digits::{nine, work_number};
use crate::nights::{CHUNK, book_of, register_of};
use crate::titles::{quoted_title, title};
use byte_streams::Feed;
use cwr_field::Memory;
use register_store::{MAX_REGISTER_BYTES, REGISTER_WINDOW, audit_source, new_book};
use register_tables::{TableError, Wanted, claims_text, history_text, summary_text, works_text};
use std::alloc::Global;
use work_registry::{Book, Call, Fault, Faults, WorkKind};

/// Registers of `size` entries, each audited or printed in another way.
pub(crate) fn tables(alloc: Global, size: u32, chance: &mut Chance) -> Result<Digest, Memory> {
    let mut digest = Digest::new();
    audit(alloc, size, chance, &mut digest)?;
    claims(alloc, size, chance, &mut digest)?;
    works(alloc, size, chance, &mut digest)?;
    history(alloc, size, chance, &mut digest)?;
    summary(alloc, size, chance, &mut digest)?;
    Ok(digest)
}

/// Audits a register of twice `size` entries.
fn audit(alloc: Global, size: u32, chance: &mut Chance, digest: &mut Digest) -> Result<(), Memory> {
    let register = new_register(alloc, size.saturating_mul(2), chance)?;
    let mut feed = Feed::new(&register, CHUNK, None);
    match audit_source(alloc, &mut feed, MAX_REGISTER_BYTES, REGISTER_WINDOW) {
        Ok(entries) => {
            digest.number(entries);
            Ok(())
        }
        Err(_) => Err(Memory),
    }
}

/// Makes tables of the claims of a register: all of them, and those of one submitter.
fn claims(
    alloc: Global,
    size: u32,
    chance: &mut Chance,
    digest: &mut Digest,
) -> Result<(), Memory> {
    let book = new_book_read(alloc, size, chance)?;
    let wanted = Wanted {
        submitter: Some(submitter(chance.below(SUBMITTERS))),
        ..Wanted::all()
    };
    claims_of(alloc, &book, &wanted, digest)
}

/// Makes a table of all claims, and one of those that are wanted.
fn claims_of(
    alloc: Global,
    book: &Book,
    wanted: &Wanted,
    digest: &mut Digest,
) -> Result<(), Memory> {
    take(
        claims_text(alloc, Vec::new(alloc), book, &Wanted::all()),
        digest,
    )?;
    take(claims_text(alloc, Vec::new(alloc), book, wanted), digest)
}

/// Makes a table of the works of a register.
fn works(alloc: Global, size: u32, chance: &mut Chance, digest: &mut Digest) -> Result<(), Memory> {
    let book = new_book_read(alloc, size, chance)?;
    take(
        works_text(alloc, Vec::new(alloc), &book, &Wanted::all()),
        digest,
    )
}

/// Makes tables of the history of a register: all of it, and that of one work.
fn history(
    alloc: Global,
    size: u32,
    chance: &mut Chance,
    digest: &mut Digest,
) -> Result<(), Memory> {
    let book = new_book_read(alloc, size, chance)?;
    let wanted = Wanted {
        work: Some(chance.below(size / 4).saturating_add(1)),
        ..Wanted::all()
    };
    history_of(alloc, &book, &wanted, digest)
}

/// Makes a table of the whole history, and one of the entries that are wanted.
fn history_of(
    alloc: Global,
    book: &Book,
    wanted: &Wanted,
    digest: &mut Digest,
) -> Result<(), Memory> {
    take(
        history_text(alloc, Vec::new(alloc), book, &Wanted::all()),
        digest,
    )?;
    take(history_text(alloc, Vec::new(alloc), book, wanted), digest)
}

/// Makes the summaries of a register.
fn summary(
    alloc: Global,
    size: u32,
    chance: &mut Chance,
    digest: &mut Digest,
) -> Result<(), Memory> {
    let book = new_book_read(alloc, size, chance)?;
    take(summary_text(alloc, Vec::new(alloc), &book), digest)
}

/// Takes a complete table.
fn take(table: Result<Vec<u8>, TableError>, digest: &mut Digest) -> Result<(), Memory> {
    match table {
        Ok(text) => {
            digest.text(&text);
            Ok(())
        }
        Err(_) => Err(Memory),
    }
}

/// The book that is read from a register of `size` entries.
fn new_book_read(alloc: Global, size: u32, chance: &mut Chance) -> Result<Book, Memory> {
    let register = new_register(alloc, size, chance)?;
    book_of(alloc, &register)
}

/// A register of `size` entries: new works, revisions, duplicates, conflicts and rejections, in no order of their keys.
fn new_register(alloc: Global, size: u32, chance: &mut Chance) -> Result<Vec<u8>, Memory> {
    let mut book = new_book(alloc);
    for _ in 0..size {
        apply_call(alloc, size, chance, &mut book)?;
    }
    register_of(alloc, &book, &mut Digest::new())
}

/// Hands a call in at the book of such a register, if its numbers make one.
fn apply_call(
    alloc: Global,
    size: u32,
    chance: &mut Chance,
    book: &mut Book,
) -> Result<(), Memory> {
    let Some(call) = new_call(alloc, size, chance)? else {
        return Ok(());
    };
    match book.apply(1, call) {
        Ok(_) => Ok(()),
        Err(_) => Err(Memory),
    }
}

/// A call of one of some submitters, on one of the works of a register of `size` entries.
fn new_call(alloc: Global, size: u32, chance: &mut Chance) -> Result<Option<Call>, Memory> {
    let number = chance.below(size / 3 + 1);
    let kind = if chance.is_one_in(3) {
        WorkKind::Rev
    } else {
        WorkKind::Nwr
    };
    let title = if chance.is_one_in(20) {
        quoted_title(chance)
    } else {
        title(chance)
    };
    let iswc = if chance.is_one_in(4) {
        None
    } else {
        Some(number as u64)
    };
    let share = 1_250 * (1 + chance.below(4)) as u64;
    Ok(Call::of(
        submitter(number % SUBMITTERS + chance.below(2)),
        kind,
        title,
        work_number(number),
        iswc,
        [share; 3],
        faults(alloc, chance)?,
    ))
}

/// The faults of a transaction, of which one in thirty has one.
fn faults(alloc: Global, chance: &mut Chance) -> Result<Faults, Memory> {
    let mut faults = Vec::new(alloc);
    if chance.is_one_in(30) {
        faults.push(Fault {
            sequence: 1,
            number: 7,
            rtype: *b"SWR",
        })?;
    }
    Ok(Faults::new(faults))
}

/// The number of submitters.
const SUBMITTERS: u32 = 250;

/// A submitter.
fn submitter(number: u32) -> [u8; 11] {
    let mut field = *b"PB000000000";
    field[2..].copy_from_slice(&nine(number));
    field
}
