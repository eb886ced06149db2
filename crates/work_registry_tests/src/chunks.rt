//! Registers that come a piece at a time.

ghost use Rattle.std.specs.Prelude.{◌<◌};

use crate::registers::ONE_ENTRY;
use std::alloc::Global;
use std::test::Fail;
use test_comparisons::same;
use work_registry::{Auditor, RegisterReader, RegisterRefusal};

/// The result of an audit of a text that comes in pieces of this size.
fn audit_in_chunks(
    alloc: Global,
    text: &[u8],
    size: usize,
) -> Result<Result<u64, RegisterRefusal>, Fail>
    requires { 0 < size }
{
    let mut auditor = Auditor::new(alloc);
    let mut held = Vec::new(alloc);
    for chunk in text.chunks(size) {
        held.extend_from_slice(chunk)?;
        match auditor.take_lines(&held) {
            Ok(taken) => held = held[taken..].to_vec(alloc)?,
            Err(refusal) => return Ok(Err(refusal)),
        }
    }
    Ok(auditor.finish(&held))
}

/// The number of entries of the book of a text that comes in pieces of this size.
fn read_in_chunks(
    alloc: Global,
    text: &[u8],
    size: usize,
) -> Result<Result<u64, RegisterRefusal>, Fail>
    requires { 0 < size }
{
    let mut reader = RegisterReader::new(alloc, 10);
    let mut held = Vec::new(alloc);
    for chunk in text.chunks(size) {
        held.extend_from_slice(chunk)?;
        match reader.take_lines(&held) {
            Ok(taken) => held = held[taken..].to_vec(alloc)?,
            Err(refusal) => return Ok(Err(refusal)),
        }
    }
    match reader.finish(&held) {
        Ok(book) => Ok(Ok(book.len() as u64)),
        Err(refusal) => Ok(Err(refusal)),
    }
}

/// One entry, and the same with a byte behind it, in pieces of each size.
#[test]
fn each_size(rt: HostRuntime) -> Result<(), Fail> {
    let one = ONE_ENTRY.as_bytes();
    let mut more = one.to_vec(rt.alloc())?;
    more.push(b'X')?;
    let refused = RegisterRefusal::Fault { number: 2, line: 3 };
    for size in 1..190usize {
        same(
            "a size, and the answer",
            &(size, audit_in_chunks(rt.alloc(), one, size)?),
            &(size, Ok(1)),
        )?;
        same(
            "a size, and the answer with a byte more",
            &(size, audit_in_chunks(rt.alloc(), &more, size)?),
            &(size, Err(refused)),
        )?;
        same(
            "a size, and the entries of the book",
            &(size, read_in_chunks(rt.alloc(), one, size)?),
            &(size, Ok(1)),
        )?;
        same(
            "a size, and what is read with a byte more",
            &(size, read_in_chunks(rt.alloc(), &more, size)?),
            &(size, Err(refused)),
        )?;
    }
    Ok(())
}
