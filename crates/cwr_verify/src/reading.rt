//! Files, each of them judged once.
ghost use Rattle.std.specs.Prelude.{◌≡◌, ℕ, List, IfOk};
ghost use Rattle.cwr_verify.specs.Read.{AreReadFrom};
ghost use Rattle.cwr_verify.specs.Reading.{IsReadingOf, transactions_in};
ghost use Rattle.cwr_verify.specs.Replied.{AreOfFile};

use crate::sent::{ReadFile, SentFile};
use cwr_engine::{Judged, JudgedFile, MAX_BYTES, judge_file};
use cwr_field::Memory;
use cwr_grammar::FileRefusal;
use std::alloc::{Allocator, Global};
use std::marker::Model;

/// The result of judging a file.
#[derive(Drop)]
pub(crate) enum Reading<A: Allocator> {
    /// A well-formed file, with its calls.
    File(JudgedFile<A>),
    /// It has more bytes than a file may have.
    TooLong,
    /// Its first fault.
    Refused {
        /// The fault, 1 to 12 for F1 to F12.
        number: u8,
        /// The line that has it, from 1.
        line: u64,
    },
}

/// The result of judging the text of a file. It borrows no byte of the text.
#[derive(Drop)]
pub struct ReadText<A: Allocator = Global> {
    reading: Reading<A>,
}

impl<A: Allocator> Model for ReadText<A> {
    ghost use Rattle.cwr_verify.specs.declared.reading.Reading.{Reading};

    ghost Value = { Reading A };

    ghost use Rattle.std.specs.Prelude.{ℕ, List};
    ghost use Rattle.cwr_verify.specs.Reading.{IsReadingOf};

    ghost view = { λ r. r.reading };

    ghost invariant = { λ r. (text : List ℕ) × IsReadingOf text r.reading };
}

impl<A: Allocator> ReadText<A> {
    /// The result of judging it.
    pub(crate) fn reading(&self) -> &Reading<A>
        ensures its { result.now ≡ self.now }
        ensures some { (text : List ℕ) × IsReadingOf text result.now }
    {
        &self.reading
    }

    /// The transactions of a well-formed file; none of any other.
    pub(crate) fn transactions(&self) -> &[Judged<A>]
        ensures its { result.now ≡ transactions_in self.now }
        ensures of_file { AreOfFile result.now }
    {
        match &self.reading {
            Reading::File(file) => file.transactions.as_slice(),
            Reading::TooLong | Reading::Refused { .. } => &[],
        }
    }
}

/// Reads the text of a file and judges it. The result borrows no byte of the text.
///
/// Any text can be read. The result is a well-formed file with its transactions, or that the text has more bytes than a
/// file may have, or its first fault. An error says that memory was refused, and nothing about the text.
pub fn read_text<A: Allocator + Copy>(alloc: A, text: &[u8]) -> Result<ReadText<A>, Memory>
    ensures { IfOk result (IsReadingOf text.now) }
{
    let reading = reading_of(alloc, text)?;
    Ok(ReadText { reading })
}

/// The result of judging a text.
pub(crate) fn reading_of<A: Allocator + Copy>(alloc: A, text: &[u8]) -> Result<Reading<A>, Memory>
    ensures { IfOk result (IsReadingOf text.now) }
{
    if text.len() > MAX_BYTES {
        return Ok(Reading::TooLong);
    }
    match judge_file(alloc, text) {
        Ok(file) => Ok(Reading::File(file)),
        Err(FileRefusal::Fault { number, line }) => Ok(Reading::Refused { number, line }),
        Err(FileRefusal::Memory) => Err(Memory),
    }
}

/// The files, each judged.
pub(crate) fn read_files<'a, A: Allocator + Copy>(
    alloc: A,
    files: &[SentFile<'a>],
) -> Result<Vec<ReadFile<'a, A>, A>, Memory>
    ensures { IfOk result (λ all. AreReadFrom files.now all.items) }
{
    let mut all = Vec::with_capacity(alloc, files.len())?;
    for file in files {
        all.push(ReadFile {
            text: read_text(alloc, file.text)?,
            acknowledgement: file.acknowledgement,
        })?;
    }
    Ok(all)
}
