//! Places in memory, and what lies there.

ghost use Rattle.std.specs.Prelude.{◌≡◌, false, IfOk, IfSome};
ghost use Rattle.atomic_file.specs.Looking.{Only};

use atomic_file::{MemoryFile, MemoryStorage, Storage};
use std::alloc::{AllocError, Global};
use std::test::Fail;
use test_comparisons::{same, same_lists};

/// What is kept.
pub(crate) const TEXT: &[u8] = b"NEW TEXT";

/// What a storage holds.
#[derive(Clone, Copy, Debug, PartialEq, Eq)]
pub(crate) struct Lies<'a> {
    pub(crate) file: Option<&'a [u8]>,
    /// What lies under the names of the two followers.
    pub(crate) followers: [Option<&'a [u8]>; 2],
    pub(crate) refused: [bool; 2],
    pub(crate) has_drafts: bool,
}

/// A follower with the file `ACK 0`, whose draft is `ACK 2`.
fn second(alloc: Global) -> Result<MemoryFile, AllocError> {
    let earlier = b"ACK 0".to_vec(alloc)?;
    Ok(MemoryFile::new(Some(earlier), b"ACK 2".to_vec(alloc)?))
}

/// That follower behind one without a file, whose draft is `ACK 1`.
fn followers(alloc: Global) -> Result<Vec<MemoryFile>, AllocError> {
    let mut followers = Vec::new(alloc);
    followers.push(MemoryFile::new(None, b"ACK 1".to_vec(alloc)?))?;
    followers.push(second(alloc)?)?;
    Ok(followers)
}

/// A storage with the file `OLD`, a follower without a file and one with `ACK 0`, whose drafts are `ACK 1` and `ACK 2`.
/// A write takes three bytes. After `good_calls` calls one fails.
pub(crate) fn storage(alloc: Global, good_calls: Option<u64>) -> Result<MemoryStorage, AllocError>
    ensures works { IfOk result (λ p. ⟦<MemoryStorage as Storage>⟧.has_failed p ≡ false) }
    ensures settled { IfOk result (λ p. IfSome (⟦<MemoryStorage as Storage>⟧.told p) (λ s. Only s.names (⟦<MemoryStorage as Storage>⟧.may_find p))) }
{
    let followers = followers(alloc)?;
    let file = Some(b"OLD".to_vec(alloc)?);
    Ok(MemoryStorage::new(alloc, file, followers, 3, good_calls))
}

/// The storage must hold just this.
pub(crate) fn expect(storage: &MemoryStorage, wanted: &Lies<'_>) -> Result<(), Fail> {
    let found = Lies {
        file: storage.file(),
        followers: [storage.follower(0), storage.follower(1)],
        refused: [storage.is_refused(0), storage.is_refused(1)],
        has_drafts: storage.has_drafts(),
    };
    same("what lies there", &found, wanted)
}

/// All is as it was: the old file, the old followers.
pub(crate) const AS_IT_WAS: Lies<'static> = Lies {
    file: Some(b"OLD"),
    followers: [None, Some(b"ACK 0")],
    refused: [false, false],
    has_drafts: false,
};

/// All is in place.
pub(crate) const IN_PLACE: Lies<'static> = Lies {
    file: Some(TEXT),
    followers: [Some(b"ACK 1"), Some(b"ACK 2")],
    refused: [false, false],
    has_drafts: false,
};
