//! A text that comes in pieces, over writes that take at most three bytes: each call that fails in turn.

ghost use Rattle.std.specs.Prelude.{◌≡◌, ◌<◌, ◌^◌, length};

use crate::memory_storage::{AS_IT_WAS, IN_PLACE, Lies, TEXT, expect, storage};
use atomic_file::{Chunks, KeepError, MemoryStorage, Storage, keep_chunks, replace_chunks};
use std::alloc::Global;
use std::test::Fail;
use test_comparisons::same;

/// A text that comes in pieces of a size, which is not 0; the last may have fewer bytes.
#[derive(Drop)]
struct Cut<'a> {
    chunk: &'a [u8],
    left: &'a [u8],
    size: usize,
}

impl Chunks for Cut<'_> {
    ghost held = { λ text. text.chunk.now };

    ghost left = { λ text. text.left.now };

    fn advance(&mut self) {
        let (chunk, left) = self.left.split_at(self.left.len().min(self.size.max(1)));
        self.chunk = chunk;
        self.left = left;
    }

    fn chunk(&self) -> &[u8] {
        self.chunk
    }
}

/// A text in pieces of this size.
fn in_chunks<'a>(text: &'a [u8], size: usize) -> Cut<'a>
    ensures short { length result.left.now < 2 ^ 63 }
{
    Cut {
        chunk: b"",
        left: text,
        size,
    }
}

/// Keeps the text in pieces. `alloc` allocates, and `size` is that of a piece, in bytes. `good_calls` is the number of
/// calls that work before one fails; `None` if none fails. `answer` is the result that it must have. `now` is what the
/// storage must hold, and `left` what it must hold after a crash.
fn expect_kept(
    alloc: Global,
    size: usize,
    good_calls: Option<u64>,
    answer: Result<(), KeepError>,
    now: &Lies<'_>,
    left: &Lies<'_>,
) -> Result<(), Fail> {
    let mut storage = storage(alloc, good_calls)?;
    same(
        "a text in pieces of a size",
        &(size, keep_chunks(&mut storage, &mut in_chunks(TEXT, size))),
        &(size, answer),
    )?;
    expect(&storage, now)?;
    storage.crash(&[]);
    expect(&storage, left)
}

/// If a write fails, the bytes of those before it are in the draft. The writes begin after three calls.
fn expect_cut_short(alloc: Global, size: usize, writes: &[u64]) -> Result<(), Fail> {
    let mut sent = 0;
    for (before, bytes) in writes.iter().enumerate() {
        let answer = Err(KeepError { sent });
        let good_calls = Some(3 + before as u64);
        expect_kept(alloc, size, good_calls, answer, &AS_IT_WAS, &AS_IT_WAS)?;
        sent = sent.saturating_add(*bytes);
    }
    same("all bytes", &sent, &8)
}

/// A text in pieces of this size is written by these writes. Each call fails in turn, and then none.
fn expect_each_failure(alloc: Global, size: usize, writes: &[u64]) -> Result<(), Fail> {
    let stopped = Err(KeepError { sent: 8 });
    let named = Lies {
        file: Some(TEXT),
        ..AS_IT_WAS
    };
    let end = 3 + writes.len() as u64;
    let not_begun = Err(KeepError { sent: 0 });
    expect_kept(alloc, size, Some(2), not_begun, &AS_IT_WAS, &AS_IT_WAS)?;
    expect_cut_short(alloc, size, writes)?;
    expect_kept(alloc, size, Some(end), stopped, &AS_IT_WAS, &AS_IT_WAS)?;
    expect_kept(alloc, size, Some(end + 1), stopped, &AS_IT_WAS, &AS_IT_WAS)?;
    expect_kept(alloc, size, Some(end + 2), stopped, &named, &AS_IT_WAS)?;
    expect_kept(alloc, size, None, Ok(()), &IN_PLACE, &IN_PLACE)
}

#[test]
fn chunks_that_one_write_takes(rt: HostRuntime) -> Result<(), Fail> {
    let alloc = rt.alloc();
    expect_each_failure(alloc, 1, &[1, 1, 1, 1, 1, 1, 1, 1])?;
    expect_each_failure(alloc, 2, &[2, 2, 2, 2])?;
    expect_each_failure(alloc, 3, &[3, 3, 2])
}

#[test]
fn chunks_that_two_writes_take(rt: HostRuntime) -> Result<(), Fail> {
    let alloc = rt.alloc();
    expect_each_failure(alloc, 4, &[3, 1, 3, 1])?;
    expect_each_failure(alloc, 5, &[3, 2, 3])?;
    expect_each_failure(alloc, 6, &[3, 3, 2])
}

#[test]
fn chunks_that_more_writes_take(rt: HostRuntime) -> Result<(), Fail> {
    let alloc = rt.alloc();
    expect_each_failure(alloc, 7, &[3, 3, 1, 1])?;
    expect_each_failure(alloc, 8, &[3, 3, 2])?;
    expect_each_failure(alloc, 9, &[3, 3, 2])
}

#[test]
fn writes_that_take_nothing(rt: HostRuntime) -> Result<(), Fail> {
    let alloc = rt.alloc();
    let mut full = MemoryStorage::new(alloc, None, Vec::new(alloc), 0, None);
    same(
        "the text",
        &keep_chunks(&mut full, &mut in_chunks(TEXT, 5)),
        &Err(KeepError { sent: 0 }),
    )?;
    same("the file", &full.file(), &None)
}

#[test]
fn a_text_without_chunks(rt: HostRuntime) -> Result<(), Fail> {
    let alloc = rt.alloc();
    let mut storage = MemoryStorage::new(alloc, None, Vec::new(alloc), 0, None);
    same(
        "the text",
        &replace_chunks(&mut storage, &mut in_chunks(b"", 5)),
        &Ok(()),
    )?;
    same("the file", &storage.file(), &Some(b"".as_slice()))
}
