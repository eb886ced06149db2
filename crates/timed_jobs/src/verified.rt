//! Small and large files against a register.

use crate::catalogue::{Order, Style, file, new_works};
use crate::chance::Chance;
use crate::crowds::crowd_of_titles;
use crate::digest::Digest;
use crate::nights::register_of;
use crate::sheet::empty_groups;
use crate::verifying::{Sent, verify_twice, work_all};
use cwr_desk::Book;
use cwr_field::Memory;
use register_store::new_book;
use std::alloc::Global;

/// Verifies files of one work and of thousands: new works, their revisions, catalogues that are sent again, groups
/// without a transaction, a work of very many records, and one work that is revised again and again, whose files are
/// given from the last to the first. Then once more with a changed acknowledgement.
pub(crate) fn verified(
    alloc: Global,
    size: u32,
    chance: &mut Chance,
    digest: &mut Digest,
) -> Result<(), Memory> {
    let mut sent = Vec::new(alloc);
    let register = register_of_all(alloc, size, chance, &mut sent, digest)?;
    verify_twice(alloc, &register, &mut sent, chance, digest)
}

/// Works all files, and returns the register that they leave. `alloc` allocates, `size` sets the number of works, and
/// `chance` gives the numbers. The files are put in `sent` with their acknowledgements, and `digest` takes the
/// register.
fn register_of_all(
    alloc: Global,
    size: u32,
    chance: &mut Chance,
    sent: &mut Vec<Sent>,
    digest: &mut Digest,
) -> Result<Vec<u8>, Memory> {
    let small = single_works(alloc, size, chance)?;
    let large = large_files(alloc, size, chance)?;
    let revisions = revisions(alloc, size / 4, chance)?;
    let book = work_all(alloc, new_book(alloc), small, sent)?;
    let book = work_all(alloc, book, large, sent)?;
    let book = work_revisions(alloc, book, revisions, sent)?;
    register_of(alloc, &book.reopened(), digest)
}

/// `size` files of one work each, of some submitters.
fn single_works(alloc: Global, size: u32, chance: &mut Chance) -> Result<Vec<Vec<u8>>, Memory> {
    let mut files = Vec::new(alloc);
    for number in 0..size {
        let order = new_works(Style::Shared, number % 50, chance.below(size), 1);
        files.push(file(alloc, chance, &order)?)?;
    }
    Ok(files)
}

/// The catalogues, and behind them a file of groups without a transaction and one of a work of very many records.
fn large_files(alloc: Global, size: u32, chance: &mut Chance) -> Result<Vec<Vec<u8>>, Memory> {
    let mut files = catalogues(alloc, size, chance)?;
    files.push(empty_groups(alloc, size)?)?;
    files.push(crowd_of_titles(alloc, size.saturating_mul(8), chance)?)?;
    Ok(files)
}

/// Three catalogues, each sent, sent again as it is, and then revised.
fn catalogues(alloc: Global, size: u32, chance: &mut Chance) -> Result<Vec<Vec<u8>>, Memory> {
    let mut files = Vec::new(alloc);
    for number in 0..3u32 {
        let submitter = 100 + number;
        let order = new_works(Style::Shared, submitter, 1_000_000, size.saturating_mul(2));
        let text = file(alloc, chance, &order)?;
        files.push(text.clone()?)?;
        files.push(text)?;
        let revised = Order {
            kind: b"REV",
            ..order
        };
        files.push(file(alloc, chance, &revised)?)?;
    }
    Ok(files)
}

/// `count` files of one work: the first registers it, and the others are its revisions.
fn revisions(alloc: Global, count: u32, chance: &mut Chance) -> Result<Vec<Vec<u8>>, Memory> {
    let mut files = Vec::new(alloc);
    for _ in 0..count {
        let order = Order {
            kind: b"REV",
            ..new_works(Style::Thin, 200, 2_000_000, 1)
        };
        files.push(file(alloc, chance, &order)?)?;
    }
    Ok(files)
}

/// Works files one after the other at a book, and puts them with their acknowledgements behind those that were sent,
/// the last ones in front.
fn work_revisions(
    alloc: Global,
    book: Book,
    files: Vec<Vec<u8>>,
    sent: &mut Vec<Sent>,
) -> Result<Book, Memory> {
    let mut last = Vec::new(alloc);
    let book = work_all(alloc, book, files, &mut last)?;
    push_reversed(sent, last)?;
    Ok(book)
}

/// Puts these behind those that were sent, the last ones in front.
fn push_reversed(sent: &mut Vec<Sent>, mut last: Vec<Sent>) -> Result<(), Memory> {
    last.reverse();
    for one in last {
        sent.push(one)?;
    }
    Ok(())
}
