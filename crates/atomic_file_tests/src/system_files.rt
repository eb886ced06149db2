//! Files of the system, each test with names of its own in the folder where it runs.

use crate::odd_system::{OddSystem, Refusals};
use atomic_file::{
    Deaf, Exclusive, FileNames, Follower, KeepError, Listener, Storage, SystemStorage, keep, lock,
    put_followers, sync_drafts,
};
use std::cell::Cell;
use std::fs::{self, Permissions};
use std::io::{self, ErrorKind};
use std::os::unix::fs::{PermissionsExt, symlink};
use std::rt::Files;
use std::test::Fail;
use std::thread::Threads;
use test_comparisons::{same, same_bytes};

const OLD: &[u8] = b"OLD";

const NEW: &[u8] = b"NEW TEXT";

/// How file systems without hard links refuse one.
const WITHOUT_LINKS: [ErrorKind; 2] = [ErrorKind::Unsupported, ErrorKind::PermissionDenied];

/// Keeps the kind of the last failure that it is told.
#[derive(Drop)]
struct Ear<'a> {
    heard: &'a Cell<Option<ErrorKind>>,
}

impl Listener for Ear<'_> {
    fn wrote(&self, _names: &FileNames, _bytes: usize) {}

    fn failed(&self, _names: &FileNames, error: &io::Error) {
        self.heard.set(Some(error.kind()));
    }
}

/// Keeps the new text under a name without followers.
fn keep_new<R: AllocGlobal + Files>(rt: &R, name: &str) -> Result<Result<(), KeepError>, Fail> {
    let names = FileNames::of_word(rt, name)?;
    let followers = Vec::new(rt.alloc());
    let mut storage = SystemStorage::new(rt, Some(&names), followers, Deaf);
    Ok(keep(&mut storage, NEW))
}

/// The file of that name has these bytes.
fn expect_bytes<R: AllocGlobal + Files>(rt: &R, name: &str, bytes: &[u8]) -> Result<(), Fail> {
    let found = fs::read(rt, name)?;
    same_bytes("the file", &found, bytes)
}

/// No draft lies beside the file of that name.
fn expect_no_draft<R: AllocGlobal + Files>(rt: &R, name: &str) -> Result<(), Fail> {
    let names = FileNames::of_word(rt, name)?;
    same("a draft", &fs::exists(rt, names.draft())?, &false)
}

/// The file of that name has these bytes, and no draft lies beside it. It is removed.
fn expect_alone<R: AllocGlobal + Files>(rt: &R, name: &str, bytes: &[u8]) -> Result<(), Fail> {
    expect_bytes(rt, name, bytes)?;
    expect_no_draft(rt, name)?;
    Ok(fs::remove_file(rt, name)?)
}

#[test]
fn a_file_that_is_not_there_yet(rt: HostRuntime) -> Result<(), Fail> {
    same("keeping", &keep_new(&rt, "not_there_yet")?, &Ok(()))?;
    expect_alone(&rt, "not_there_yet", NEW)
}

#[test]
fn a_file_with_permissions_of_its_own(rt: HostRuntime) -> Result<(), Fail> {
    fs::write(&rt, "guarded", OLD)?;
    fs::set_permissions(&rt, "guarded", Permissions::from_mode(0o640))?;
    same("keeping", &keep_new(&rt, "guarded")?, &Ok(()))?;
    let mode = fs::metadata(&rt, "guarded")?.permissions().mode() & 0o777;
    same("its permissions", &mode, &0o640)?;
    expect_alone(&rt, "guarded", NEW)
}

#[test]
fn a_draft_that_a_crash_left(rt: HostRuntime) -> Result<(), Fail> {
    fs::write(&rt, "crashed", OLD)?;
    fs::write(&rt, "crashed.new", b"HALF OF A LONGER TEXT")?;
    same("keeping", &keep_new(&rt, "crashed")?, &Ok(()))?;
    expect_alone(&rt, "crashed", NEW)
}

#[test]
fn a_link_stays_a_link(rt: HostRuntime) -> Result<(), Fail> {
    fs::write(&rt, "linked_to", OLD)?;
    symlink(&rt, "linked_to", "a_link")?;
    same("keeping", &keep_new(&rt, "a_link")?, &Ok(()))?;
    same(
        "a link",
        &fs::symlink_metadata(&rt, "a_link")?.is_symlink(),
        &true,
    )?;
    fs::remove_file(&rt, "a_link")?;
    expect_alone(&rt, "linked_to", NEW)
}

#[test]
fn a_link_to_a_file_that_is_not_there_yet(rt: HostRuntime) -> Result<(), Fail> {
    symlink(&rt, "linked_to_later", "a_dangling_link")?;
    same("keeping", &keep_new(&rt, "a_dangling_link")?, &Ok(()))?;
    fs::remove_file(&rt, "a_dangling_link")?;
    expect_alone(&rt, "linked_to_later", NEW)
}

/// A folder that a link leads to, and in it a link that leads out of it. Another folder.
fn make_folders<R: Files>(rt: &R) -> Result<(), Fail> {
    fs::create_dir(rt, "folder")?;
    symlink(rt, "folder", "a_folder")?;
    symlink(rt, "../outside", "folder/linked")?;
    fs::create_dir(rt, "beside")?;
    Ok(())
}

/// Words of two folders by turns, and of none.
const WORDS: [&str; 5] = [
    "a_folder/inside",
    "a_folder/linked",
    "beside/inside",
    "a_folder/again",
    "apart",
];

/// Writes each of these words to the file that it leads to.
fn write_words<R: AllocGlobal + Files>(rt: &R) -> Result<(), Fail> {
    let mut words = Vec::new(rt.alloc());
    for word in &WORDS {
        words.push(String::from_str(rt.alloc(), word)?)?;
    }
    for names in FileNames::of_words(rt, &words)? {
        fs::write(rt, names.name(), names.word().as_bytes())?;
    }
    Ok(())
}

/// Each of the names is of the file that its word leads to.
#[test]
fn words_of_folders(rt: HostRuntime) -> Result<(), Fail> {
    make_folders(&rt)?;
    write_words(&rt)?;
    expect_bytes(&rt, "folder/inside", b"a_folder/inside")?;
    expect_bytes(&rt, "outside", b"a_folder/linked")?;
    expect_bytes(&rt, "beside/inside", b"beside/inside")?;
    expect_bytes(&rt, "folder/again", b"a_folder/again")?;
    expect_bytes(&rt, "apart", b"apart")
}

#[test]
fn what_is_no_regular_file(rt: HostRuntime) -> Result<(), Fail> {
    same("a device", &keep_new(&rt, "/dev/null")?, &Ok(()))?;
    same(
        "still a device",
        &fs::metadata(&rt, "/dev/null")?.is_file(),
        &false,
    )?;
    same("its draft", &fs::exists(&rt, "/dev/null.new")?, &false)?;
    same(
        "no directory",
        &keep_new(&rt, "/nowhere/at/all")?,
        &Err(KeepError { sent: 0 }),
    )
}

/// Where no file can be synced, no draft takes a name. What has no draft is written all the same.
#[test]
fn a_system_that_syncs_nothing(rt: HostRuntime) -> Result<(), Fail> {
    let refusals = Refusals::new(None, Some(ErrorKind::Unsupported));
    let odd = OddSystem {
        system: &rt,
        refusals: &refusals,
    };
    fs::write(&rt, "not_synced", OLD)?;
    same(
        "keeping",
        &keep_new(&odd, "not_synced")?,
        &Err(KeepError { sent: 8 }),
    )?;
    expect_alone(&rt, "not_synced", OLD)?;
    same("a device", &keep_new(&odd, "/dev/null")?, &Ok(()))
}

/// No draft can take the name of a folder.
#[test]
fn a_folder(rt: HostRuntime) -> Result<(), Fail> {
    fs::create_dir(&rt, "a_folder_there")?;
    same(
        "keeping",
        &keep_new(&rt, "a_folder_there")?,
        &Err(KeepError { sent: 8 }),
    )?;
    expect_no_draft(&rt, "a_folder_there")?;
    Ok(fs::remove_dir(&rt, "a_folder_there")?)
}

/// Keeps the new text under a name where no file is to be replaced. Returns the kind of the failure, if one was told.
fn keep_first<R: AllocGlobal + Files>(rt: &R, name: &str) -> Result<Option<ErrorKind>, Fail> {
    let heard = Cell::new(None);
    let names = FileNames::of_word(rt, name)?;
    let followers = Vec::new(rt.alloc());
    let mut storage = SystemStorage::new(rt, Some(&names), followers, Ear { heard: &heard });
    storage.replace_none();
    let kept = keep(&mut storage, NEW);
    same("kept", &kept.is_ok(), &heard.get().is_none())?;
    Ok(heard.get())
}

/// A file that is there stays as it is. Where none is there, the text gets the name.
fn expect_first<R: AllocGlobal + Files>(rt: &R) -> Result<(), Fail> {
    fs::write(rt, "the_first", OLD)?;
    let there = Some(ErrorKind::AlreadyExists);
    same("another", &keep_first(rt, "the_first")?, &there)?;
    expect_alone(rt, "the_first", OLD)?;
    same("the first", &keep_first(rt, "the_first")?, &None)?;
    expect_alone(rt, "the_first", NEW)
}

#[test]
fn a_file_that_replaces_none(rt: HostRuntime) -> Result<(), Fail> {
    expect_first(&rt)?;
    for kind in &WITHOUT_LINKS {
        let refusals = Refusals::new(Some(*kind), None);
        expect_first(&OddSystem {
            system: &rt,
            refusals: &refusals,
        })?;
    }
    Ok(())
}

/// A follower of that name, with a draft.
fn with_draft<R: AllocGlobal + Files>(rt: &R, name: &str) -> Result<FileNames, Fail> {
    let names = FileNames::of_word(rt, name)?;
    fs::write(rt, names.draft(), NEW)?;
    Ok(names)
}

/// Followers of these names, each with a draft.
fn with_drafts<R: AllocGlobal + Files>(rt: &R, words: &[&str]) -> Result<Vec<FileNames>, Fail> {
    let mut all = Vec::new(rt.alloc());
    for word in words {
        all.push(with_draft(rt, word)?)?;
    }
    Ok(all)
}

/// Three followers, of which the first alone replaces a file.
fn followers<'a, R: AllocGlobal>(rt: &R, all: &'a [FileNames]) -> Result<Vec<Follower<'a>>, Fail> {
    let mut followers = Vec::new(rt.alloc());
    for (names, replaces) in all.iter().zip(&[true, false, false]) {
        followers.push(Follower::new(names, *replaces))?;
    }
    Ok(followers)
}

/// Puts them in place, and returns which of them are refused.
fn refused_of<R: AllocGlobal + Files>(rt: &R, all: &[FileNames]) -> Result<[bool; 3], Fail> {
    let followers = followers(rt, all)?;
    let mut storage = SystemStorage::new(rt, None, followers, Deaf);
    put_followers(&mut storage);
    Ok([
        storage.is_refused(0),
        storage.is_refused(1),
        storage.is_refused(2),
    ])
}

/// The third of three followers is refused: it must not replace a file and finds one.
fn expect_third_refused<R: AllocGlobal + Files>(rt: &R) -> Result<(), Fail> {
    let all = with_drafts(rt, &["follows", "follows_alone", "is_there"])?;
    same("refused", &refused_of(rt, &all)?, &[false, false, true])
}

/// Each of the others is in place, and what is there for the third stays as it is.
fn expect_followers<R: AllocGlobal + Files>(rt: &R) -> Result<(), Fail> {
    fs::write(rt, "follows", OLD)?;
    fs::write(rt, "is_there", OLD)?;
    expect_third_refused(rt)?;
    expect_alone(rt, "follows", NEW)?;
    expect_alone(rt, "follows_alone", NEW)?;
    fs::remove_file(rt, "is_there.new")?;
    expect_alone(rt, "is_there", OLD)
}

#[test]
fn followers_in_place_of_files_or_of_none(rt: HostRuntime) -> Result<(), Fail> {
    expect_followers(&rt)?;
    for kind in &WITHOUT_LINKS {
        let refusals = Refusals::new(Some(*kind), None);
        expect_followers(&OddSystem {
            system: &rt,
            refusals: &refusals,
        })?;
    }
    Ok(())
}

/// Writes the drafts of forty followers, in two folders by turns, but for the draft of one.
fn forty<R: AllocGlobal + Files>(rt: &R, without: usize) -> Result<Vec<FileNames>, Fail> {
    let mut all = Vec::new(rt.alloc());
    for at in 0..40 {
        let folder = if at % 2 == 0 { "even" } else { "odd" };
        let word = format!(in rt.alloc(); "{folder}/{at}")?;
        let names = FileNames::of_word(rt, word.as_str())?;
        if at != without {
            fs::write(rt, names.draft(), word.as_bytes())?;
        }
        all.push(names)?;
    }
    Ok(all)
}

/// Puts followers in place whose drafts are put on disk on threads. Returns which of them is refused, if one is.
///
/// Threads have synced each draft that is there, and the storage syncs the two folders and nothing more. `refusals`
/// counts the syncs of `rt`.
fn refused_one<R: AllocGlobal + Files + Threads + Sync>(
    rt: &R,
    all: &[FileNames],
    refusals: &Refusals,
) -> Result<Option<usize>, Fail>
where
    R::File: Send,
    R::Dir: Send,
{
    let mut followers = Vec::new(rt.alloc());
    for names in all {
        followers.push(Follower::new(names, true))?;
    }
    sync_drafts(rt, &mut followers);
    same("syncs by threads", &refusals.syncs(), &39)?;
    let mut storage = SystemStorage::new(rt, None, followers, Deaf);
    put_followers(&mut storage);
    same("all syncs", &refusals.syncs(), &41)?;
    Ok((0..all.len()).find(|at| storage.is_refused(*at)))
}

/// Each of these but one has its text under its name, and no draft.
fn expect_all_but<R: AllocGlobal + Files>(
    rt: &R,
    all: &[FileNames],
    without: usize,
) -> Result<(), Fail> {
    for (at, names) in all.iter().enumerate() {
        if at == without {
            same("a file", &fs::exists(rt, names.name())?, &false)?;
        } else {
            expect_alone(rt, names.word(), names.word().as_bytes())?;
        }
    }
    Ok(())
}

/// The one without a draft is refused, and the others are in place.
fn expect_in_place<R: AllocGlobal + Files + Threads + Sync>(rt: &R) -> Result<(), Fail>
where
    R::File: Send,
    R::Dir: Send,
{
    fs::create_dir(rt, "even")?;
    fs::create_dir(rt, "odd")?;
    let all = forty(rt, 17)?;
    let refusals = Refusals::new(None, None);
    let counted = OddSystem {
        system: rt,
        refusals: &refusals,
    };
    same(
        "refused",
        &refused_one(&counted, &all, &refusals)?,
        &Some(17),
    )?;
    expect_all_but(rt, &all, 17)
}

#[test]
fn followers_beside_one_another(rt: HostRuntime) -> Result<(), Fail> {
    expect_in_place(&rt)
}

/// Whether the lock is free.
fn expect_lock<R: Files>(rt: &R, what: &str, is_free: bool) -> Result<(), Fail>
where
    R::File: Exclusive,
{
    let held = lock(rt, "one.lock")?;
    same(what, &held.is_some(), &is_free)
}

/// The lock is held once, and not a second time.
fn expect_held<R: Files>(rt: &R) -> Result<(), Fail>
where
    R::File: Exclusive,
{
    let first = lock(rt, "one.lock")?;
    same("the first", &first.is_some(), &true)?;
    expect_lock(rt, "the second", false)
}

#[test]
fn a_lock_is_of_one_at_a_time(rt: HostRuntime) -> Result<(), Fail> {
    expect_held(&rt)?;
    expect_lock(&rt, "the next", true)?;
    Ok(fs::remove_file(&rt, "one.lock")?)
}
