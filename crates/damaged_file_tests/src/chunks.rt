//! A file that comes in pieces.

ghost use Rattle.std.specs.Prelude.{None, false};

use crate::three_ways::{Ends, NEW, Wanted, expect_three_ways, whole};
use byte_streams::{Failed, ReadCount, Room, Source};
use cwr_desk::{FileOutcome, acknowledge};
use std::alloc::Global;
use std::test::Fail;
use test_comparisons::{same, same_bytes};
use test_files::{one_answer, plain_file, stamp};

const ACKED: FileOutcome = FileOutcome::Acked { transactions: 1 };

/// Pieces of each size, up to one more than the file has bytes.
#[test]
fn takes_chunks_of_each_size(rt: HostRuntime) -> Result<(), Fail> {
    let text = plain_file(rt.alloc())?;
    let answer = one_answer(rt.alloc(), "AS")?;
    let wanted = Wanted {
        end: ACKED,
        written: &answer,
        replies: &NEW,
    };
    for size in 0..=text.len() {
        let ends = Ends {
            chunk: size + 1,
            ..whole(&text)
        };
        expect_three_ways(&rt, ends, wanted)?;
    }
    Ok(())
}

/// A source that gives a text in three pieces.
#[derive(Drop)]
struct Cut<'a> {
    chunks: [&'a [u8]; 3],
    reads: ReadCount,
}

impl Source for Cut<'_> {
    ghost left = { λ _. None };

    ghost reads = { λ s. s.reads };

    ghost has_failed = { λ _. false };

    fn failed(&self) -> bool {
        false
    }

    /// Gives what is left of the next piece that is not empty.
    fn read_some(&mut self, room: &mut [u8]) -> Result<usize, Failed> {
        self.reads.count();
        for chunk in self.chunks.iter_mut() {
            if !chunk.is_empty() {
                let n = chunk.len().min(room.len());
                let (given, left) = chunk.split_at(n);
                room[..n].copy_from_slice(given);
                *chunk = left;
                return Ok(n);
            }
        }
        Ok(0)
    }
}

/// The plain file in three pieces is acknowledged.
fn expect_chunks(alloc: Global, chunks: [&[u8]; 3], written: &[u8]) -> Result<(), Fail> {
    let stamp = stamp()?;
    let mut reader = Cut {
        chunks,
        reads: ReadCount::zero(),
    };
    let mut writer = Room::new(alloc, written.len(), true)?;
    let end = acknowledge(alloc, &mut reader, &mut writer, &stamp);
    let [first, second, _] = chunks;
    let cuts = (first.len(), second.len());
    same(
        "two cuts, and how the file ended",
        &(cuts, end),
        &(cuts, ACKED),
    )?;
    same_bytes("what was written", writer.bytes(), written)
}

/// A cut at each place, and a second one up to three bytes behind it.
#[test]
fn takes_each_cut(rt: HostRuntime) -> Result<(), Fail> {
    let text = plain_file(rt.alloc())?;
    let answer = one_answer(rt.alloc(), "AS")?;
    for start in 0..=text.len() {
        let (first, rest) = text.split_at_checked(start).ok_or("a cut")?;
        for width in 0..4 {
            let (second, last) = rest.split_at_checked(rest.len().min(width)).ok_or("a cut")?;
            expect_chunks(rt.alloc(), [first, second, last], &answer)?;
        }
    }
    Ok(())
}
