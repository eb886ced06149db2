//! What a crash leaves between the calls, of a draft without bytes, and of followers.

ghost use Rattle.std.specs.Prelude.{◌≡◌, false};

use crate::memory_storage::{AS_IT_WAS, Lies, expect, storage};
use atomic_file::{MemoryStorage, Storage};
use std::alloc::Global;
use std::test::Fail;

/// The draft has got its name.
const NAMED: Lies<'static> = Lies {
    file: Some(b""),
    has_drafts: true,
    ..AS_IT_WAS
};

/// The draft exists beside the old file.
const DRAFTED: Lies<'static> = Lies {
    has_drafts: true,
    ..AS_IT_WAS
};

/// A crash must leave this.
fn expect_left(storage: &mut MemoryStorage, wanted: &Lies<'_>) -> Result<(), Fail>
    ensures { ⟦<MemoryStorage as Storage>⟧.has_failed storage.new ≡ ⟦<MemoryStorage as Storage>⟧.has_failed storage.old }
{
    storage.crash(&[]);
    expect(storage, wanted)
}

/// A draft is still there after a crash, before its sync and after it.
fn expect_draft(storage: &mut MemoryStorage) -> Result<(), Fail>
    requires { ⟦<MemoryStorage as Storage>⟧.has_failed storage.old ≡ false }
{
    storage.begin_draft()?;
    expect_left(storage, &DRAFTED)?;
    storage.sync_draft()?;
    expect_left(storage, &DRAFTED)
}

#[test]
fn a_draft(rt: HostRuntime) -> Result<(), Fail> {
    let mut storage = storage(rt.alloc(), None)?;
    expect_draft(&mut storage)
}

/// A crash undoes a name that is not synced.
fn expect_undone(storage: &mut MemoryStorage) -> Result<(), Fail>
    requires { ⟦<MemoryStorage as Storage>⟧.has_failed storage.old ≡ false }
{
    storage.begin_draft()?;
    storage.sync_draft()?;
    storage.put_in_place()?;
    expect(storage, &NAMED)?;
    expect_left(storage, &DRAFTED)
}

#[test]
fn a_name_that_is_not_synced(rt: HostRuntime) -> Result<(), Fail> {
    let mut storage = storage(rt.alloc(), None)?;
    expect_undone(&mut storage)
}

/// A crash leaves a name that is synced.
fn expect_named(storage: &mut MemoryStorage) -> Result<(), Fail>
    requires { ⟦<MemoryStorage as Storage>⟧.has_failed storage.old ≡ false }
{
    storage.begin_draft()?;
    storage.sync_draft()?;
    storage.put_in_place()?;
    storage.sync_name()?;
    expect_left(storage, &NAMED)
}

#[test]
fn a_name_that_is_synced(rt: HostRuntime) -> Result<(), Fail> {
    let mut storage = storage(rt.alloc(), None)?;
    expect_named(&mut storage)
}

/// A draft that is begun after another was named, and dropped.
fn expect_dropped(storage: &mut MemoryStorage) -> Result<(), Fail>
    requires { ⟦<MemoryStorage as Storage>⟧.has_failed storage.old ≡ false }
{
    storage.begin_draft()?;
    storage.sync_draft()?;
    storage.put_in_place()?;
    storage.begin_draft()?;
    expect(storage, &NAMED)?;
    storage.drop_draft();
    let dropped = Lies {
        has_drafts: true,
        ..NAMED
    };
    expect_left(storage, &dropped)
}

#[test]
fn a_draft_after_another(rt: HostRuntime) -> Result<(), Fail> {
    let mut storage = storage(rt.alloc(), None)?;
    expect_dropped(&mut storage)
}

/// A crash while followers take their names. Each case has the calls made so far and the names that the disk had
/// already, and what the crash leaves.
struct Crash {
    calls: usize,
    stayed: [bool; 2],
    followers: [Option<&'static [u8]>; 2],
    has_drafts: bool,
}

const FIRST: Option<&[u8]> = Some(b"ACK 1");

const SECOND: Option<&[u8]> = Some(b"ACK 2");

const OLD: Option<&[u8]> = Some(b"ACK 0");

/// The calls are: the drafts are put on disk, the first follower takes its name, the second does, and the names are put
/// on disk.
const CRASHES: [Crash; 11] = [
    Crash {
        calls: 0,
        stayed: [true, true],
        followers: [None, OLD],
        has_drafts: true,
    },
    Crash {
        calls: 1,
        stayed: [true, true],
        followers: [None, OLD],
        has_drafts: true,
    },
    Crash {
        calls: 2,
        stayed: [false, false],
        followers: [None, OLD],
        has_drafts: true,
    },
    Crash {
        calls: 2,
        stayed: [false, true],
        followers: [None, OLD],
        has_drafts: true,
    },
    Crash {
        calls: 2,
        stayed: [true, false],
        followers: [FIRST, OLD],
        has_drafts: true,
    },
    Crash {
        calls: 3,
        stayed: [false, false],
        followers: [None, OLD],
        has_drafts: false,
    },
    Crash {
        calls: 3,
        stayed: [false, true],
        followers: [None, SECOND],
        has_drafts: false,
    },
    Crash {
        calls: 3,
        stayed: [true, false],
        followers: [FIRST, OLD],
        has_drafts: false,
    },
    Crash {
        calls: 3,
        stayed: [true, true],
        followers: [FIRST, SECOND],
        has_drafts: false,
    },
    Crash {
        calls: 4,
        stayed: [false, false],
        followers: [FIRST, SECOND],
        has_drafts: false,
    },
    Crash {
        calls: 4,
        stayed: [true, false],
        followers: [FIRST, SECOND],
        has_drafts: false,
    },
];

/// Makes the first `calls` of the four calls.
fn make_calls(storage: &mut MemoryStorage, calls: usize) -> Result<(), Fail> {
    if calls > 0 {
        storage.sync_followers();
    }
    if calls > 1 {
        storage.put_follower(0)?;
    }
    if calls > 2 {
        storage.put_follower(1)?;
    }
    if calls > 3 {
        storage.sync_follower_names();
    }
    Ok(())
}

/// After these calls a crash must leave this.
fn expect_crash(alloc: Global, crash: &Crash) -> Result<(), Fail> {
    let mut storage = storage(alloc, None)?;
    make_calls(&mut storage, crash.calls)?;
    storage.crash(&crash.stayed);
    let wanted = Lies {
        followers: crash.followers,
        has_drafts: crash.has_drafts,
        ..AS_IT_WAS
    };
    expect(&storage, &wanted)
}

#[test]
fn followers_between_their_calls(rt: HostRuntime) -> Result<(), Fail> {
    for crash in &CRASHES {
        expect_crash(rt.alloc(), crash)?;
    }
    Ok(())
}
