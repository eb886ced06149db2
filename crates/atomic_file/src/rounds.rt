//! Drafts that threads sync to disk beside one another.

ghost use Rattle.std.specs.Prelude.{ℕ, ◌≡◌, ◌^◌, ◌<◌, ◌≤◌, pos, Some};
ghost use Rattle.std.specs.Thread.{IsSync};
ghost use Rattle.std.specs.IoError.{error_kind, raw_os_error};
ghost use Rattle.atomic_file.specs.Codes.{failed_code};

use crate::Follower;
use crate::draft::sync_draft;
use std::io::{self, ErrorKind};
use std::rt::Files;
use std::sync::atomic::{AtomicU64, Ordering};
use std::thread::{Threads, join};

/// How many threads wait for the disk at a time, at most.
const MAX_THREADS: u64 = 16;

/// The code of a draft that no thread has synced so far.
const UNASKED: u64 = 0;

/// The code of a draft that is on disk.
const SYNCED: u64 = 1;

/// The code of a sync that failed without an error number of the system. With the error number n, the code is `FAILED`
/// + n + 1.
const FAILED: u64 = 2;

/// The result of the sync of a draft by a thread.
#[derive(Debug, Drop)]
pub(crate) struct Answer {
    code: AtomicU64,
}

impl Answer {
    /// No sync was made so far.
    pub(crate) fn none() -> Answer {
        Answer {
            code: AtomicU64::new(UNASKED),
        }
    }

    /// Keeps the result of a sync.
    pub(crate) fn keep(&self, done: &io::Result<()>) {
        let code = match done {
            Ok(()) => SYNCED,
            Err(error) => code_of(error),
        };
        self.code.store(code, Ordering::SeqCst);
    }

    /// The result of the sync, if one was made.
    pub(crate) fn sync_result(&self) -> Option<io::Result<()>> {
        match self.code.load(Ordering::SeqCst) {
            UNASKED => None,
            SYNCED => Some(Ok(())),
            code => Some(Err(error_of(code))),
        }
    }
}

/// The code of an error.
fn code_of(error: &io::Error) -> u64
    ensures { result ≡ failed_code (raw_os_error error.now) }
{
    match error.raw_os_error().map(u64::try_from) {
        Some(Ok(number)) => number.saturating_add(FAILED + 1),
        Some(Err(_)) | None => FAILED,
    }
}

/// The error of a code, as [`code_of`] makes it. Of an error without a number it has not the kind.
fn error_of(code: u64) -> io::Error
    ensures number { (n : ℕ) → n < 2 ^ 31 → code ≡ failed_code (Some (pos n)) → raw_os_error result ≡ Some (pos n) }
    ensures none { code ≤ 2 → error_kind result ≡ ErrorKind.Other }
{
    match code.checked_sub(FAILED + 1).map(i32::try_from) {
        Some(Ok(number)) => io::Error::from_raw_os_error(number),
        Some(Err(_)) | None => io::Error::from(ErrorKind::Other),
    }
}

/// How far the threads have come that sync drafts to disk.
#[derive(Drop)]
pub(crate) struct Round {
    /// How many drafts were begun.
    begun: AtomicU64,
}

impl Round {
    /// No draft was begun.
    pub(crate) fn new() -> Round {
        Round {
            begun: AtomicU64::new(0),
        }
    }

    /// Syncs drafts to disk one after another, until each was begun by some thread.
    fn sync_some<R: Files>(&self, rt: &R, followers: &[Follower<'_>]) {
        for _ in 0..followers.len() {
            let at = self.begun.fetch_add(1, Ordering::SeqCst) as usize;
            let Some(follower) = followers.get(at) else {
                return;
            };
            if follower.is_written() {
                follower.answer.keep(&sync_draft(rt, follower.names));
            }
        }
    }

    /// Whether one more thread is worth its start, where `threads` were started before.
    ///
    /// That is so where three things hold. With it there are still fewer threads than drafts. At least two drafts are
    /// not begun. Of those begun there are at most two for each of the `threads`.
    fn wants_thread(&self, threads: u64, drafts: usize) -> bool {
        let begun = self.begun.load(Ordering::SeqCst);
        let drafts = drafts as u64;
        threads.saturating_add(1) < drafts
            && begun.saturating_add(1) < drafts
            && begun <= threads.saturating_mul(2)
    }
}

/// Syncs drafts to disk, on this thread and on others. `threads` is how many others were started before.
#[cycle(syncing)]
pub(crate) fn sync_beside<R: Files + Threads + Sync>(
    rt: &R,
    round: &Round,
    followers: &[Follower<'_>],
    threads: u64,
)
where
    R::File: Send,
    R::Dir: Send,
    requires few { threads ≤ 16 }
{
    if threads + 1 < MAX_THREADS && round.wants_thread(threads, followers.len()) {
        join(
            rt,
            move ||
                requires { IsSync R.row × (threads < 15) }
            { sync_beside(rt, round, followers, threads + 1) },
            move || round.sync_some(rt, followers),
        );
    } else {
        round.sync_some(rt, followers);
    }
}
