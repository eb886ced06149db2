//! Files worked at seats of one desk, one after the other on one thread.
use crate::threads::SecondFirst;
use byte_streams::{Feed, Room};
use cwr_desk::{Book, Desk, FileOutcome, Why, work};
use std::alloc::Global;
use std::sync::Wait;
use std::test::Fail;
use test_comparisons::{same, same_bytes};
use test_files::{one_answer, rival_claims, stamp};
use test_jobs::{ACKED, accepted, expect_history};

/// What two seats leave: the book, how each file ended and what was written of its acknowledgement.
#[derive(Drop)]
struct Worked {
    book: Book,
    ends: [FileOutcome; 2],
    writers: [Room; 2],
}

/// Works two files at two seats of one desk, with a gate that lets worker 1 pass only after worker 2.
fn work_two<T: Wait>(rt: &T, alloc: Global, one: &[u8], other: &[u8]) -> Result<Worked, Fail> {
    let stamp = stamp()?;
    let mut first_writer = Room::new(alloc, 425, true)?;
    let mut second_writer = Room::new(alloc, 425, true)?;
    let gate = SecondFirst::new();
    let Ok((desk, mut opening)) = Desk::open(alloc, Book::new(alloc, 100), 3) else {
        return Err(Fail::from("memory"));
    };
    let first = desk.split(&mut opening);
    let second = desk.split(&mut opening);
    let mut reader = Feed::new(one, 4096, None);
    let (first, first_end) = work(
        rt,
        alloc,
        &desk,
        first,
        &mut reader,
        &mut first_writer,
        &stamp,
        &gate,
        1,
    );
    let mut reader = Feed::new(other, 4096, None);
    let (second, second_end) = work(
        rt,
        alloc,
        &desk,
        second,
        &mut reader,
        &mut second_writer,
        &stamp,
        &gate,
        2,
    );
    desk.meet(&mut opening, first);
    desk.meet(&mut opening, second);
    Ok(Worked {
        book: desk.close(opening),
        ends: [first_end, second_end],
        writers: [first_writer, second_writer],
    })
}

/// The gate stopped the first file, and the second one was acknowledged.
fn expect_second_alone(alloc: Global, worked: &Worked) -> Result<(), Fail> {
    let stopped = FileOutcome::Stopped {
        handed: 0,
        why: Why::Gate,
    };
    same("how the files ended", &worked.ends, &[stopped, ACKED])?;
    expect_history(&worked.book, &[(2, accepted(1, 1))])?;
    let [first, second] = &worked.writers;
    same_bytes("the first acknowledgement", first.bytes(), b"")?;
    let wanted = one_answer(alloc, "AS")?;
    same_bytes("the second acknowledgement", second.bytes(), &wanted)
}

#[test]
fn the_first_seat_waits_in_vain(rt: HostRuntime) -> Result<(), Fail> {
    let alloc = rt.alloc();
    let files = rival_claims(alloc)?;
    let [one, other] = &files;
    let worked = work_two(&rt, alloc, one, other)?;
    expect_second_alone(alloc, &worked)
}
