ghost use Rattle.std.specs.Prelude.{◌≡◌, ◌+◌, ◌≤◌, ◌<◌, ℕ, List, true, false, length, IfOk, IfErr, IfSome, IsErrOf};
ghost use Rattle.std.specs.Str.Lines.{lines};
ghost use Rattle.byte_streams.specs.GivenBytes.{HasGiven};
ghost use Rattle.cwr_grammar.specs.Faults.{IsLeastFault};
ghost use Rattle.cwr_source.specs.Input.{IsInput, IsUnjudged};
ghost use Rattle.cwr_check.specs.CheckText.{IsCheck, IsCheckOfFault, IsCheckOfFile};

use crate::short_report::ShortReport;
use byte_streams::{ReadRefused, Source};
use cwr_field::Memory;
use cwr_grammar::{FileRefusal, visit_file};
use cwr_source::{SourceRefused, visit_source};
use std::alloc::{Allocator, Global};

/// What a check found in a file.
#[derive_where(Debug)]
#[derive(Drop)]
pub struct Checked<A: Allocator = Global> {
    /// The report on the file: lines, each with LF at its end.
    pub text: Vec<u8, A>,
    /// Whether the file is well-formed and none of its transactions has a fault.
    pub clean: bool,
}

/// Checks a file by the rules of files and of transactions, F1 to F12 and J1 to J15, without a registry.
///
/// For a file that is not well-formed the text is its first fault, as `refused F9 at line 5`.
///
/// For any other file it has a line for each transaction, in the order of the file. In it are the group id in five
/// digits, the transaction sequence in eight, the kind (NWR or REV), and then `ok`, or `rejected` and each fault. A
/// fault is written as `1:J6`, for a record sequence and the number of a rule. The last line is as
/// `2 transactions, 1 with faults`. Each line has LF at its end.
///
/// Where memory is refused there is no report.
///
/// # Examples
///
/// ```rust
/// let checked = check_text(alloc, b"")?;
/// same_bytes("the report", &checked.text, b"refused F1 at line 1\n")?;
/// same("whether it is clean", &checked.clean, &false)?;
/// ```
pub fn check_text<A: Allocator + Copy>(alloc: A, bytes: &[u8]) -> Result<Checked<A>, Memory>
    ensures { IfOk result (λ checked. IsCheck (lines bytes.now) checked.text.items checked.clean) }
{
    let mut told = ShortReport::new(alloc);
    match visit_file(bytes, &mut told) {
        Ok(_) => Ok(told.finish()?),
        Err(FileRefusal::Fault { number, line }) => check_of_fault(alloc, number, line),
        Err(FileRefusal::Memory) => Err(Memory),
    }
}

/// Checks the file of a source as [`check_text`] does, through a window of `capacity` bytes. The window grows beyond
/// that only for a longer line.
///
/// `alloc` allocates, and `reader` gives the file. At most `limit` bytes are taken, with at most `limit` + 2 reads.
/// Where contracts see the reader's bytes, it gave the first of them and holds the others. A fault is reported once the
/// file was read to its end.
///
/// # Examples
///
/// A file in memory that comes seven bytes at a time, through a window of 64 bytes.
///
/// ```rust
/// let checked = check_source(alloc, &mut Feed::new(bytes, 7, None), limit, 64)?;
/// same("whether it is clean", &checked.clean, &true)?;
/// ```
pub fn check_source<R: Source, A: Allocator + Copy>(
    alloc: A,
    reader: &mut R,
    limit: usize,
    capacity: usize,
) -> Result<Checked<A>, ReadRefused>
    requires going { R.has_failed reader.old ≡ false }
    requires limit { limit < 4611686018427387904 }
    ensures told { IfOk result (λ checked. (input : List ℕ) × IsInput limit (R.left reader.old) input × IsCheck (lines input) checked.text.items checked.clean) }
    ensures too_long { IsErrOf result ReadRefused.TooLong → IfSome (R.left reader.old) (λ bytes. limit < length bytes) }
    ensures failed { IsErrOf result ReadRefused.Read → R.has_failed reader.new ≡ true }
    ensures read_on { HasGiven (R.left reader.old) (R.left reader.new) }
    ensures few_reads { R.reads reader.new ≤ R.reads reader.old + limit + 2 }
{
    match check_of_file(alloc, reader, limit, capacity) {
        Ok(checked) => Ok(checked),
        Err(SourceRefused::Fault { number, line }) => match check_of_fault(alloc, number, line) {
            Ok(checked) => Ok(checked),
            Err(_) => Err(ReadRefused::Memory),
        },
        Err(SourceRefused::Memory) => Err(ReadRefused::Memory),
        Err(SourceRefused::Read) => Err(ReadRefused::Read),
        Err(SourceRefused::TooLong) => Err(ReadRefused::TooLong),
    }
}

/// The report on the file of a source, where it is well-formed.
fn check_of_file<R: Source, A: Allocator + Copy>(
    alloc: A,
    reader: &mut R,
    limit: usize,
    capacity: usize,
) -> Result<Checked<A>, SourceRefused>
    requires going { R.has_failed reader.old ≡ false }
    requires limit { limit < 4611686018427387904 }
    ensures told { IfOk result (λ checked. (input : List ℕ) × IsInput limit (R.left reader.old) input × IsCheckOfFile (lines input) checked.text.items checked.clean) }
    ensures refused { IfErr result (IsUnjudged limit (R.left reader.old) (R.has_failed reader.new)) }
    ensures read_on { HasGiven (R.left reader.old) (R.left reader.new) }
    ensures few_reads { R.reads reader.new ≤ R.reads reader.old + limit + 2 }
{
    let (_, told) = visit_source(alloc, reader, limit, capacity, ShortReport::new(alloc))?;
    match told.finish() {
        Ok(checked) => Ok(checked),
        Err(_) => Err(SourceRefused::Memory),
    }
}

/// The report on a file with this fault.
fn check_of_fault<A: Allocator + Copy>(
    alloc: A,
    number: u8,
    line: u64,
) -> Result<Checked<A>, Memory>
    ensures { IfOk result (λ checked. (text : List (List ℕ)) → IsLeastFault text line number → IsCheckOfFault text checked.text.items checked.clean) }
{
    let text = format!(in alloc; "refused F{number} at line {line}\n")?;
    Ok(Checked {
        text: text.into_bytes(),
        clean: false,
    })
}
