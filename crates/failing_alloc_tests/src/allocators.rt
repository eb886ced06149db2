//! The allocator itself: which request it refuses, and what it counts.

use failing_alloc::FailingAlloc;
use std::alloc::{Allocator, Global};
use std::test::Fail;
use test_comparisons::same;

/// Allocates three times, and returns which of the three were refused.
fn asked_three_times<A: Allocator + Copy>(memory: A) -> [bool; 3] {
    let one = Vec::<u8, A>::with_capacity(memory, 10).is_err();
    let two = Vec::<u8, A>::with_capacity(memory, 20).is_err();
    let three = Vec::<u8, A>::with_capacity(memory, 30).is_err();
    [one, two, three]
}

/// Of three requests the n-th must be refused alone, and all must be counted.
fn expect(alloc: Global, n: u64, refused: [bool; 3]) -> Result<(), Fail> {
    let memory = FailingAlloc::nth(alloc, n);
    same("refused", &asked_three_times(&memory), &refused)?;
    same("counted", &memory.requests(), &3)
}

#[test]
fn refuses_one_of_three(rt: HostRuntime) -> Result<(), Fail> {
    let alloc = rt.alloc();
    expect(alloc, 0, [false, false, false])?;
    expect(alloc, 1, [true, false, false])?;
    expect(alloc, 2, [false, true, false])?;
    expect(alloc, 3, [false, false, true])?;
    expect(alloc, 4, [false, false, false])
}

/// A vector that cannot grow keeps what it holds, and each growth is one request.
#[test]
fn refuses_a_growth(rt: HostRuntime) -> Result<(), Fail> {
    let memory = FailingAlloc::nth(rt.alloc(), 2);
    let mut bytes = Vec::with_capacity(&memory, 2)?;
    bytes.extend_from_slice(b"12")?;
    same("refused", &bytes.push(b'3').is_err(), &true)?;
    same("kept", &bytes.as_slice(), &b"12".as_slice())?;
    bytes.push(b'3')?;
    same("grown", &bytes.as_slice(), &b"123".as_slice())?;
    same("counted", &memory.requests(), &3)
}
