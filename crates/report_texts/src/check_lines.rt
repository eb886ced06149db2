ghost use Rattle.std.specs.Prelude.{◌≡◌, ◌++◌, OnOk};
ghost use Rattle.std.specs.Str.Lines.{lines};
ghost use Rattle.report_texts.specs.CheckLines.{named_line, named_lines, is_fault_line, fault_line, fault_lines};

use cwr_field::{Memory, cut};
use cwr_grammar::Lines;
use std::alloc::Allocator;

/// Appends the lines of a check of a file, each behind the file's name, a colon and a blank, and with LF at its end. So
/// the lines of several files can be told apart.
///
/// An allocation failure may leave some of the lines, and a part of the next.
pub fn put_named_lines<A: Allocator>(
    out: &mut Vec<u8, A>,
    name: &str,
    told: &[u8],
) -> Result<(), Memory>
    ensures { OnOk result (out.new.items ≡ out.old.items ++ named_lines name.now (lines told.now)) }
{
    for line in Lines::of(told) {
        put_named_line(out, name, line)?;
    }
    Ok(())
}

/// Appends a line behind a name.
fn put_named_line<A: Allocator>(out: &mut Vec<u8, A>, name: &str, line: &[u8]) -> Result<(), Memory>
    ensures { OnOk result (out.new.items ≡ out.old.items ++ named_line name.now line.now) }
{
    out.extend_from_slice(name.as_bytes())?;
    out.extend_from_slice(b": ")?;
    out.extend_from_slice(line)?;
    out.extend_from_slice(b"\n")?;
    Ok(())
}

/// Appends the lines of faults among the lines that `cwr_check::check_text` gives: those of rejected transactions, or
/// the one of a refused file. Each has LF at its end.
///
/// An allocation failure may leave some of the lines, and a part of the next.
pub fn put_fault_lines<A: Allocator>(out: &mut Vec<u8, A>, told: &[u8]) -> Result<(), Memory>
    ensures { OnOk result (out.new.items ≡ out.old.items ++ fault_lines (lines told.now)) }
{
    for line in Lines::of(told) {
        put_fault_line(out, line)?;
    }
    Ok(())
}

/// Appends a line, if it is one of a fault.
fn put_fault_line<A: Allocator>(out: &mut Vec<u8, A>, line: &[u8]) -> Result<(), Memory>
    ensures { OnOk result (out.new.items ≡ out.old.items ++ fault_line line.now) }
{
    if is_fault_line(line) {
        out.extend_from_slice(line)?;
        out.extend_from_slice(b"\n")?;
    }
    Ok(())
}

/// Whether a line is that of a refused file or of a rejected transaction. The latter has `rejected` behind its place
/// and its kind.
fn is_fault_line(line: &[u8]) -> bool
    ensures { result ≡ is_fault_line line.now }
{
    let verdict: [u8; 8] = cut(line, 20, 8).bytes();
    let begin: [u8; 7] = cut(line, 1, 7).bytes();
    verdict == *b"rejected" || begin == *b"refused"
}
