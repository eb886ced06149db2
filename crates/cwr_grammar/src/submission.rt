ghost use Rattle.std.specs.Prelude.{IfOk, IfErr, length};
ghost use Rattle.std.specs.Str.Lines.{lines};
ghost use Rattle.cwr_grammar.specs.File.{File, IsFile};
ghost use Rattle.cwr_grammar.specs.Submitted.{IsSubmission, IsBounded, IsRefusal};

use crate::file_reader::FileReader;
use crate::lines::first_line_near;
use crate::refusal::FileRefusal;
use crate::transactions::Transactions;
use cwr_record::Header;
use std::alloc::{Allocator, Global};

/// A well-formed file, whose bytes it borrows.
#[derive_where(Debug)]
#[derive(Drop)]
pub struct Submission<'a, A: Allocator = Global> {
    /// The file's head, HDR.
    pub header: Header,
    /// The transactions of all groups, in the order of the file.
    pub transactions: Transactions<'a, A>,
    /// How many groups the file has.
    pub groups: u32,
    /// How many records the file has, its header and its trailer included.
    pub records: u32,
}

/// Reads a file: an HDR line, groups and a TRL line, each group a GRH line, transactions and a GRT line.
///
/// Of a well-formed file it returns the header, the transactions and the counts. Group ids have at most five digits,
/// and sequences at most eight. A transaction has at least one line. The transactions together have at most half as
/// many lines as the file has bytes. No byte of the sender is below 32.
///
/// Of any other file it returns the first fault: that of the first faulty line, and of that line's faults the least.
///
/// The bytes are gone over once. Memory is asked for only for the spans of the transactions. A refusal of memory says
/// nothing about the file.
///
/// # Examples
///
/// ```rust
/// let file = parse_file(alloc, text)?;
/// same("the sender", &file.header.sender, b"PB000000123")?;
/// let transaction = file.transactions.get(0).ok_or("no transaction")?;
/// for line in transaction.lines() {
///     println!(rt; "{} bytes", line.len())?;
/// }
/// ```
pub fn parse_file<'a, A: Allocator>(
    alloc: A,
    bytes: &'a [u8],
) -> Result<Submission<'a, A>, FileRefusal>
    ensures found { IfOk result (λ s. (f : File) × IsFile (lines bytes.now) f × IsSubmission f s.header s.transactions s.groups s.records) }
    ensures bounds { IfOk result (λ s. IsBounded (length bytes.now) s.header s.transactions) }
    ensures fault { IfErr result (IsRefusal (lines bytes.now)) }
{
    let mut reader = FileReader::new();
    let mut spans = Vec::new(alloc);
    let mut current = None;
    let mut at = 0;
    while let Some(line) = first_line_near(&bytes[at..], 0) {
        current = reader.place_line(&mut spans, current, at, &line)?;
        at += line.size;
    }
    let envelope = reader.envelope()?;
    Ok(Submission {
        header: envelope.header,
        transactions: Transactions { bytes, spans },
        groups: envelope.groups,
        records: envelope.records,
    })
}
