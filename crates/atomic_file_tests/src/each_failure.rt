//! Each call that fails in turn. A text of eight bytes in writes of three is kept by thirteen calls. The drafts of two
//! followers are synced. The draft of the file is begun, written three times and synced; it takes its name, which is
//! synced. Then each of the followers takes its name, and each name is synced.

use crate::memory_storage::{AS_IT_WAS, IN_PLACE, Lies, TEXT, expect, storage};
use atomic_file::{
    KeepError, MemoryStorage, Storage, drop_followers, keep, put_followers, replace,
};
use std::alloc::Global;
use std::test::Fail;
use test_comparisons::same;

/// The storage must hold `now`, and `left` after a crash.
fn expect_both(storage: &mut MemoryStorage, now: &Lies<'_>, left: &Lies<'_>) -> Result<(), Fail> {
    expect(storage, now)?;
    storage.crash(&[]);
    expect(storage, left)
}

/// If the call after `good_calls` ones fails, the text is not kept: `sent` bytes went into the draft, and the storage
/// must hold `wanted`.
fn expect_not_kept(
    alloc: Global,
    good_calls: u64,
    sent: u64,
    wanted: &Lies<'_>,
) -> Result<(), Fail> {
    let mut storage = storage(alloc, Some(good_calls))?;
    same(
        "the text",
        &keep(&mut storage, TEXT),
        &Err(KeepError { sent }),
    )?;
    expect_both(&mut storage, wanted, &AS_IT_WAS)
}

/// If the call after `good_calls` ones fails, or none, the text is kept, and the storage must hold `wanted`; after a
/// crash too.
fn expect_kept(alloc: Global, good_calls: Option<u64>, wanted: &Lies<'_>) -> Result<(), Fail> {
    let mut storage = storage(alloc, good_calls)?;
    same("the text", &keep(&mut storage, TEXT), &Ok(()))?;
    let left = *wanted;
    expect_both(&mut storage, wanted, &left)
}

/// All is in place but the first follower.
const WITHOUT_FIRST: Lies<'static> = Lies {
    followers: [None, Some(b"ACK 2")],
    refused: [true, false],
    has_drafts: true,
    ..IN_PLACE
};

/// All is in place but the second follower.
const WITHOUT_SECOND: Lies<'static> = Lies {
    followers: [Some(b"ACK 1"), Some(b"ACK 0")],
    refused: [false, true],
    has_drafts: true,
    ..IN_PLACE
};

#[test]
fn followers_that_are_not_synced(rt: HostRuntime) -> Result<(), Fail> {
    let alloc = rt.alloc();
    expect_kept(alloc, Some(0), &WITHOUT_FIRST)?;
    expect_kept(alloc, Some(1), &WITHOUT_SECOND)
}

#[test]
fn a_draft_that_is_not_begun_or_written(rt: HostRuntime) -> Result<(), Fail> {
    let alloc = rt.alloc();
    expect_not_kept(alloc, 2, 0, &AS_IT_WAS)?;
    expect_not_kept(alloc, 3, 0, &AS_IT_WAS)?;
    expect_not_kept(alloc, 4, 3, &AS_IT_WAS)?;
    expect_not_kept(alloc, 5, 6, &AS_IT_WAS)
}

#[test]
fn a_draft_that_is_not_synced_or_named(rt: HostRuntime) -> Result<(), Fail> {
    let alloc = rt.alloc();
    expect_not_kept(alloc, 6, 8, &AS_IT_WAS)?;
    expect_not_kept(alloc, 7, 8, &AS_IT_WAS)?;
    // The name is there, and a crash undoes it.
    let named = Lies {
        file: Some(TEXT),
        ..AS_IT_WAS
    };
    expect_not_kept(alloc, 8, 8, &named)
}

#[test]
fn followers_that_are_refused(rt: HostRuntime) -> Result<(), Fail> {
    let alloc = rt.alloc();
    expect_kept(alloc, Some(9), &WITHOUT_FIRST)?;
    expect_kept(alloc, Some(10), &WITHOUT_SECOND)
}

/// If the call after `good_calls` ones fails, the name of a follower is there, and is reported as one that a crash may
/// undo. After a crash it is there if the disk had it already, as `stayed` says; the storage must then hold `left`.
fn expect_unsettled(
    alloc: Global,
    good_calls: u64,
    stayed: [bool; 2],
    left: &Lies<'_>,
) -> Result<(), Fail> {
    let mut storage = storage(alloc, Some(good_calls))?;
    same("the text", &keep(&mut storage, TEXT), &Ok(()))?;
    let now = Lies {
        refused: left.refused,
        ..IN_PLACE
    };
    expect(&storage, &now)?;
    storage.crash(&stayed);
    expect(&storage, left)
}

#[test]
fn a_first_name_that_is_not_synced(rt: HostRuntime) -> Result<(), Fail> {
    let undone = Lies {
        has_drafts: false,
        ..WITHOUT_FIRST
    };
    let stayed = Lies {
        followers: IN_PLACE.followers,
        ..undone
    };
    expect_unsettled(rt.alloc(), 11, [false, true], &undone)?;
    expect_unsettled(rt.alloc(), 11, [true, false], &stayed)
}

#[test]
fn a_second_name_that_is_not_synced(rt: HostRuntime) -> Result<(), Fail> {
    let undone = Lies {
        has_drafts: false,
        ..WITHOUT_SECOND
    };
    let stayed = Lies {
        followers: IN_PLACE.followers,
        ..undone
    };
    expect_unsettled(rt.alloc(), 12, [true, false], &undone)?;
    expect_unsettled(rt.alloc(), 12, [false, true], &stayed)
}

#[test]
fn all_is_kept(rt: HostRuntime) -> Result<(), Fail> {
    let alloc = rt.alloc();
    expect_kept(alloc, Some(13), &IN_PLACE)?;
    expect_kept(alloc, None, &IN_PLACE)
}

/// The file is there and its followers wait, until they are dropped.
fn expect_dropped(storage: &mut MemoryStorage) -> Result<(), Fail> {
    let waiting = Lies {
        file: Some(TEXT),
        has_drafts: true,
        ..AS_IT_WAS
    };
    expect(storage, &waiting)?;
    drop_followers(storage);
    let dropped = Lies {
        has_drafts: false,
        ..waiting
    };
    expect(storage, &dropped)
}

#[test]
fn a_file_without_its_followers(rt: HostRuntime) -> Result<(), Fail> {
    let mut storage = storage(rt.alloc(), None)?;
    same("the text", &replace(&mut storage, TEXT), &Ok(()))?;
    expect_dropped(&mut storage)
}

#[test]
fn followers_without_a_new_file(rt: HostRuntime) -> Result<(), Fail> {
    let mut storage = storage(rt.alloc(), None)?;
    put_followers(&mut storage);
    let followed = Lies {
        file: Some(b"OLD"),
        ..IN_PLACE
    };
    expect(&storage, &followed)
}

#[test]
fn writes_that_take_nothing(rt: HostRuntime) -> Result<(), Fail> {
    let alloc = rt.alloc();
    let mut full = MemoryStorage::new(alloc, None, Vec::new(alloc), 0, None);
    same(
        "the text",
        &keep(&mut full, TEXT),
        &Err(KeepError { sent: 0 }),
    )?;
    same("the file", &full.file(), &None)
}

#[test]
fn a_text_without_bytes(rt: HostRuntime) -> Result<(), Fail> {
    let alloc = rt.alloc();
    let mut storage = MemoryStorage::new(alloc, None, Vec::new(alloc), 0, None);
    same("the text", &keep(&mut storage, b""), &Ok(()))?;
    same("the file", &storage.file(), &Some(b"".as_slice()))
}
