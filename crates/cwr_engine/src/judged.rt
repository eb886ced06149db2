ghost use Rattle.std.specs.Prelude.{◌≡◌, ◌+◌, ◌≤◌, ◌<◌, ℕ, List, false, IfOk, IfErr};
ghost use Rattle.std.specs.Str.Lines.{lines};
ghost use Rattle.cwr_grammar.specs.Submitted.{IsRefusal};
ghost use Rattle.byte_streams.specs.GivenBytes.{HasGiven};
ghost use Rattle.cwr_source.specs.Input.{IsInput, IsUnjudged};
ghost use Rattle.cwr_engine.specs.Judged.{WasJudged};

use crate::call_collector::CallCollector;
use byte_streams::Source;
use cwr_call::Call;
use cwr_grammar::{FileRefusal, visit_file};
use cwr_record::Header;
use cwr_source::{SourceRefused, visit_source};
use std::alloc::{Allocator, Global};
use std::marker::Model;

/// A transaction of a file, judged.
#[derive_where(Debug)]
#[derive(Drop)]
pub struct Judged<A: Allocator = Global> {
    /// Group id of its group, from 1, at most 99999.
    pub group: u32,
    /// Its transaction sequence, from 0, at most 99999999.
    pub sequence: u32,
    /// What it requests of the registry, and its faults.
    pub call: Call<A>,
}

impl<A: Allocator> Model for Judged<A> {
    ghost use Rattle.cwr_engine.specs.Judged.{JudgedValue};

    ghost Value = { JudgedValue };

    ghost view = { λ j. record { group = j.group; sequence = j.sequence; call = j.call } };
}

/// A well-formed file whose transactions are judged. It borrows no byte of the file.
#[derive_where(Debug)]
#[derive(Drop)]
pub struct JudgedFile<A: Allocator = Global> {
    /// The file's head, HDR.
    pub header: Header,
    /// The transactions of all groups, in the order of the file.
    pub transactions: Vec<Judged<A>, A>,
}

/// Reads a file and judges each of its transactions while it reads.
///
/// Of a well-formed file it returns the header and, in order, what each transaction requests of the registry. Of any
/// other it returns the first fault, as [`parse_file`](cwr_grammar::parse_file) does. The bytes are gone over once.
///
/// Memory is asked for the list of the transactions and for what their rules need. A refusal of memory says nothing
/// about the file.
pub fn judge_file<A: Allocator + Copy>(alloc: A, bytes: &[u8]) -> Result<JudgedFile<A>, FileRefusal>
    ensures judged { IfOk result (λ file. WasJudged bytes.now file.header file.transactions.items) }
    ensures fault { IfErr result (IsRefusal (lines bytes.now)) }
{
    let mut made = CallCollector::new(alloc);
    let envelope = visit_file(bytes, &mut made)?;
    Ok(JudgedFile {
        header: envelope.header,
        transactions: made.judged,
    })
}

/// Judges the file of a source as [`judge_file`] does, through a window of `capacity` bytes. The window grows beyond
/// that only for a longer line.
///
/// At most `limit` bytes are taken, with at most `limit` + 2 reads. Where contracts see the reader's bytes, it gave the
/// first of them and holds the others. A fault is returned once the file was read to its end. The reader is told that
/// no more is read.
pub fn judge_source<R: Source, A: Allocator + Copy>(
    alloc: A,
    reader: &mut R,
    limit: usize,
    capacity: usize,
) -> Result<JudgedFile<A>, SourceRefused>
    requires going { R.has_failed reader.old ≡ false }
    requires limit { limit < 4611686018427387904 }
    ensures judged { IfOk result (λ file. (input : List ℕ) × IsInput limit (R.left reader.old) input × WasJudged input file.header file.transactions.items) }
    ensures refused { IfErr result (IsUnjudged limit (R.left reader.old) (R.has_failed reader.new)) }
    ensures read_on { HasGiven (R.left reader.old) (R.left reader.new) }
    ensures few_reads { R.reads reader.new ≤ R.reads reader.old + limit + 2 }
{
    let visited = visit_source(alloc, reader, limit, capacity, CallCollector::new(alloc));
    reader.end_text();
    let (envelope, made) = visited?;
    Ok(JudgedFile {
        header: envelope.header,
        transactions: made.judged,
    })
}
