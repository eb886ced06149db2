//! A register against the files that were sent, and their acknowledgements.

ghost use Rattle.std.specs.Prelude.{◌≡◌, IfOk, false};

use crate::catalogue::{Style, file, new_works};
use crate::chance::Chance;
use crate::digest::Digest;
use crate::nights::{CHUNK, book_of, register_of, stamp};
use byte_streams::{Feed, Spool};
use cwr_desk::{Book, Job, work_alone};
use cwr_field::Memory;
use cwr_verify::{SentFile, VerifyError, verify};
use register_store::new_book;
use std::alloc::Global;

/// A file that was sent, and its acknowledgement.
#[derive(Drop)]
pub(crate) struct Sent {
    text: Vec<u8>,
    acknowledgement: Vec<u8>,
}

/// The files of a year, each answered by the registry in its turn. They are verified against its register, and once
/// more with one changed acknowledgement.
pub(crate) fn verifying(alloc: Global, size: u32, chance: &mut Chance) -> Result<Digest, Memory> {
    let mut digest = Digest::new();
    let mut sent = Vec::new(alloc);
    let register = register_of_year(alloc, size, chance, &mut sent, &mut digest)?;
    verify_twice(alloc, &register, &mut sent, chance, &mut digest)?;
    Ok(digest)
}

/// Works the files of a year, and returns the register that they leave. `alloc` allocates, `size` is the number of
/// files, and `chance` gives the numbers. The files are put in `sent` with their acknowledgements, and `digest` takes
/// the register.
fn register_of_year(
    alloc: Global,
    size: u32,
    chance: &mut Chance,
    sent: &mut Vec<Sent>,
    digest: &mut Digest,
) -> Result<Vec<u8>, Memory> {
    let files = year(alloc, size, chance)?;
    let book = work_all(alloc, new_book(alloc), files, sent)?;
    register_of(alloc, &book.reopened(), digest)
}

/// `size` files of a hundred works.
fn year(alloc: Global, size: u32, chance: &mut Chance) -> Result<Vec<Vec<u8>>, Memory> {
    let mut files = Vec::new(alloc);
    for number in 0..size {
        let style = if number % 4 == 3 {
            Style::Shared
        } else {
            Style::Thin
        };
        let first = chance.below(20).saturating_mul(50_000);
        let order = new_works(style, number % 300, first.saturating_add(number), 100);
        files.push(file(alloc, chance, &order)?)?;
    }
    Ok(files)
}

/// Works files one after the other at a book, and puts each with its acknowledgement behind those that were sent.
pub(crate) fn work_all(
    alloc: Global,
    mut book: Book,
    files: Vec<Vec<u8>>,
    sent: &mut Vec<Sent>,
) -> Result<Book, Memory> {
    for text in files {
        book = worked(alloc, book, text, sent)?;
    }
    Ok(book)
}

/// Works a file at a book, and puts it with its acknowledgement behind those that were sent.
fn worked(alloc: Global, book: Book, text: Vec<u8>, sent: &mut Vec<Sent>) -> Result<Book, Memory> {
    let (book, acknowledgement) = worked_alone(alloc, book, &text)?;
    sent.push(Sent {
        text,
        acknowledgement,
    })?;
    Ok(book)
}

/// Works a file at a book, and returns that with the acknowledgement.
fn worked_alone(alloc: Global, book: Book, text: &[u8]) -> Result<(Book, Vec<u8>), Memory> {
    let (book, job, _) = work_alone(alloc, book, 1, spool_job(alloc, text), &stamp()?);
    Ok((book, job.writer.into_bytes()))
}

/// The job of a file, whose acknowledgement is kept.
fn spool_job<'a>(alloc: Global, text: &'a [u8]) -> Job<Feed<'a>, Spool>
    ensures { (result.reader.has_failed ≡ false) × (result.writer.has_failed ≡ false) }
{
    Job {
        reader: Feed::new(text, CHUNK, None),
        writer: Spool::new(alloc),
    }
}

/// Verifies all files against the book of a register, and once more with one changed acknowledgement. `alloc`
/// allocates, and the book is that of `register`. `sent` has the files, `chance` says which acknowledgement is changed,
/// and `digest` takes the results.
pub(crate) fn verify_twice(
    alloc: Global,
    register: &[u8],
    sent: &mut Vec<Sent>,
    chance: &mut Chance,
    digest: &mut Digest,
) -> Result<(), Memory> {
    let book = book_of(alloc, register)?;
    verify_all(alloc, &book, sent, digest)?;
    spoil(sent, chance);
    verify_all(alloc, &book, sent, digest)
}

/// Changes a byte of one of the last acknowledgements.
fn spoil(sent: &mut Vec<Sent>, chance: &mut Chance) {
    let count = sent.len();
    let back = 1 + chance.below(5) as usize;
    if back <= count {
        let acknowledgement = &mut sent[count - back].acknowledgement;
        let middle = acknowledgement.len() / 2;
        if let Some(byte) = acknowledgement.get_mut(middle) {
            *byte = if *byte == b'0' { b'1' } else { b'0' };
        }
    }
}

/// Verifies all files, and takes the entries that answer them, or what does not fit.
fn verify_all(
    alloc: Global,
    book: &Book,
    sent: &[Sent],
    digest: &mut Digest,
) -> Result<(), Memory> {
    let mut files = Vec::new(alloc);
    for Sent {
        text,
        acknowledgement,
    } in sent {
        files.push(SentFile {
            text,
            acknowledgement,
        })?;
    }
    match verify(alloc, book, &files) {
        Ok(owners) => {
            for owner in &owners {
                digest.number(*owner as u64);
            }
            Ok(())
        }
        Err(VerifyError::Memory) => Err(Memory),
        Err(unverified) => {
            take_unverified(unverified, digest);
            Ok(())
        }
    }
}

/// Takes what does not fit.
fn take_unverified(unverified: VerifyError, digest: &mut Digest) {
    match unverified {
        VerifyError::Memory => digest.text(b"memory"),
        VerifyError::TooLong { file } => digest.number(file as u64),
        VerifyError::Refused { file, number, line } => {
            digest.number(file as u64);
            digest.number(number as u64);
            digest.number(line);
        }
        VerifyError::Transaction {
            file,
            group,
            sequence,
        } => {
            digest.number(file as u64);
            digest.number(group as u64);
            digest.number(sequence as u64);
        }
        VerifyError::Acknowledgement { file, line } => {
            digest.number(file as u64);
            digest.number(line as u64);
        }
    }
}
