//! Readers and writers that fail, at each byte.

use crate::three_ways::{Ends, NEW, Wanted, expect_three_ways, nothing, whole};
use cwr_desk::{FileOutcome, Why};
use std::sync::Wait;
use std::test::Fail;
use std::thread::Threads;
use test_comparisons::same;
use test_files::{one_answer, plain_file};

/// The reads of the plain file, a byte at a time, are one more than its bytes: the last one finds the end.
#[test]
fn stops_where_a_read_fails(rt: HostRuntime) -> Result<(), Fail> {
    let text = plain_file(rt.alloc())?;
    let end = FileOutcome::Stopped {
        handed: 0,
        why: Why::Read,
    };
    for number in 0..=text.len() {
        let ends = Ends {
            chunk: 1,
            fail: Some(number as u64 + 1),
            ..whole(&text)
        };
        expect_three_ways(&rt, ends, nothing(end))?;
    }
    Ok(())
}

/// A writer takes the first bytes of the plain file's acknowledgement and no more.
fn expect_stopped<T: AllocGlobal + Threads + Wait + Sync>(
    rt: &T,
    text: &[u8],
    sent: &[u8],
    fails: bool,
) -> Result<(), Fail> {
    let why = Why::Write {
        sent: sent.len() as u64,
    };
    let ends = Ends {
        room: sent.len(),
        fails,
        ..whole(text)
    };
    let wanted = Wanted {
        end: FileOutcome::Stopped { handed: 1, why },
        written: sent,
        replies: &NEW,
    };
    expect_three_ways(rt, ends, wanted)
}

#[test]
fn stops_where_a_write_fails(rt: HostRuntime) -> Result<(), Fail> {
    let text = plain_file(rt.alloc())?;
    let answer = one_answer(rt.alloc(), "AS")?;
    same("its length", &answer.len(), &425)?;
    for room in 0..425 {
        let sent = answer.get(..room).ok_or("a front")?;
        expect_stopped(&rt, &text, sent, true)?;
        expect_stopped(&rt, &text, sent, false)?;
    }
    Ok(())
}

#[test]
fn takes_a_writer_with_room(rt: HostRuntime) -> Result<(), Fail> {
    let text = plain_file(rt.alloc())?;
    let answer = one_answer(rt.alloc(), "AS")?;
    let wanted = Wanted {
        end: FileOutcome::Acked { transactions: 1 },
        written: &answer,
        replies: &NEW,
    };
    for fails in [true, false] {
        let ends = Ends {
            fails,
            ..whole(&text)
        };
        expect_three_ways(&rt, ends, wanted)?;
    }
    Ok(())
}
