ghost use Rattle.std.specs.Prelude.{◌≡◌, ◌≤◌, None, false, is_err, length, map, ⊤, IfOk};

use crate::draft::{
    name_draft, name_first_draft, name_new_draft, open_draft, remove_draft, sync_directory,
    sync_draft, sync_file, takes_draft,
};
use crate::folders::SyncedFolders;
use crate::rounds::{Answer, Round, sync_beside};
use crate::{CallFailed, FileNames, Listener, Storage};
use std::fs::OpenFile;
use std::io::{ErrorKind, Write};
use std::rt::Files;
use std::thread::Threads;
use std::{fs, io};

/// A file that follows: its draft is written already.
#[derive(Debug, Drop)]
pub struct Follower<'a> {
    pub(crate) names: &'a FileNames,
    /// Whether it may replace a file that is there.
    replaces: bool,
    stage: Stage,
    /// The result of the sync of its draft, where a thread made it.
    pub(crate) answer: Answer,
    /// Why it could not be put in place, until the listener is notified of that.
    trouble: Option<io::Error>,
}

/// How far a follower has come.
#[derive(Clone, Copy, Debug, PartialEq, Eq)]
enum Stage {
    /// Its draft is written.
    Written,
    /// Its draft is on disk.
    Synced,
    /// Its draft has its name.
    Named,
    /// Its name is on disk.
    InPlace,
    /// It could not be put in place.
    Refused,
}

impl<'a> Follower<'a> {
    /// The follower of these names. Without `replaces`, it is refused where a file has its name by then.
    pub fn new(names: &'a FileNames, replaces: bool) -> Follower<'a>
        ensures names { result.names ≡ names.entry }
        ensures replaces { result.replaces ≡ replaces }
        ensures waits { result.stage ≡ Stage.Written }
        ensures untold { result.trouble ≡ None }
    {
        Follower {
            names,
            replaces,
            stage: Stage::Written,
            answer: Answer::none(),
            trouble: None,
        }
    }

    /// Syncs the draft to disk, unless that was tried already.
    fn sync_draft<R: Files>(&mut self, rt: &R) {
        if self.is_written() {
            let synced = sync_draft(rt, self.names);
            self.goes_on(synced, Stage::Synced);
        }
    }

    /// Takes over the result of a thread's sync of the draft, if one was made.
    fn take_answer(&mut self)
        ensures names { self.new.names ≡ self.old.names }
        ensures replaces { self.new.replaces ≡ self.old.replaces }
    {
        if self.is_written() {
            if let Some(synced) = self.answer.sync_result() {
                self.goes_on(synced, Stage::Synced);
            }
        }
    }

    /// Whether the draft is written, and nothing was tried with it.
    pub(crate) fn is_written(&self) -> bool {
        self.stage == Stage::Written
    }

    /// Gives the draft its name, where it is on disk.
    fn take_name<R: Files>(&mut self, rt: &R) {
        let named = match self.stage {
            Stage::Synced => give_name(rt, self.names, self.replaces),
            Stage::Written => Err(io::Error::from(ErrorKind::NotFound)),
            Stage::Named | Stage::InPlace | Stage::Refused => return,
        };
        self.goes_on(named, Stage::Named);
    }

    /// Goes on to a stage, or is refused where `done` is an error.
    fn goes_on(&mut self, done: io::Result<()>, stage: Stage)
        ensures names { self.new.names ≡ self.old.names }
        ensures replaces { self.new.replaces ≡ self.old.replaces }
    {
        match done {
            Ok(()) => self.stage = stage,
            Err(error) => {
                self.stage = Stage::Refused;
                self.trouble = Some(error);
            }
        }
    }
}

/// Syncs the drafts of followers to disk, up to sixteen beside one another, on threads.
///
/// So they wait for the disk together, before a storage takes them. Each thread starts another as it begins, unless
/// those before it have gone through more than two drafts each by then. That happens in memory, where more threads
/// would take longer. Where the runtime refuses a thread, another thread does its part.
///
/// A follower whose draft cannot be synced is refused, and its storage reports why to its listener. The sync is not
/// tried again, because the system may report a failed write only once.
pub fn sync_drafts<R: Files + Threads + Sync>(rt: &R, followers: &mut [Follower<'_>])
where
    R::File: Send,
    R::Dir: Send,
    // They are the same, in the same order.
    ensures names { map (λ f. f.names) followers.new ≡ map (λ f. f.names) followers.old }
    ensures replaces { map (λ f. f.replaces) followers.new ≡ map (λ f. f.replaces) followers.old }
{
    sync_beside(rt, &Round::new(), followers, 0);
    for at in 0..followers.len() {
        followers[at].take_answer();
    }
}

/// Gives a draft its name. A file of that name is replaced with `replaces`, and is an error without.
fn give_name<R: Files>(rt: &R, names: &FileNames, replaces: bool) -> io::Result<()> {
    if replaces {
        name_draft(rt, names)
    } else {
        name_new_draft(rt, names)
    }
}

/// A storage in the file system. Contracts do not see its bytes.
///
/// Each folder in which followers took their names is synced to disk once. A folder that is spelled in two ways is
/// synced once for each. Drafts that [`sync_drafts`] has not synced are synced one after another.
///
/// A file that is no regular one, such as a device or a pipe, has no draft: what is written for it goes into it.
#[derive(Drop)]
pub struct SystemStorage<'a, R: Files, L: Drop> {
    rt: &'a R,
    /// None where there are only followers.
    file: Option<&'a FileNames>,
    /// Whether the file may replace one that is there.
    replaces: bool,
    followers: Vec<Follower<'a>>,
    listener: L,
    /// What is written for the file, from when its draft is begun until the draft has the name.
    open: Option<R::File>,
    /// Whether `open` is a draft, and not the file itself.
    is_draft: bool,
    failed: bool,
}

impl<'a, R: Files, L: Listener + Drop> SystemStorage<'a, R, L> {
    /// The storage of a file and its followers. Without a file, each call that concerns it or its draft fails.
    pub fn new(
        rt: &'a R,
        file: Option<&'a FileNames>,
        followers: Vec<Follower<'a>>,
        listener: L,
    ) -> SystemStorage<'a, R, L>
        ensures { result.failed ≡ false }
    {
        SystemStorage {
            rt,
            file,
            replaces: true,
            followers,
            listener,
            open: None,
            is_draft: false,
            failed: false,
        }
    }

    /// From here on the file replaces none: where one is there by then, its draft does not take the name.
    pub fn replace_none(&mut self)
        ensures { self.new ≡ record self.old { replaces = false } }
    {
        self.replaces = false;
    }

    /// The names of the file.
    fn names(&self) -> io::Result<&'a FileNames> {
        match self.file {
            Some(names) => Ok(names),
            None => Err(io::Error::from(ErrorKind::NotFound)),
        }
    }

    /// Opens what is to be written for the file.
    fn try_begin(&mut self) -> io::Result<()> {
        let names = self.names()?;
        self.open = None;
        self.is_draft = takes_draft(self.rt, names);
        self.open = Some(open_draft(self.rt, names)?);
        Ok(())
    }

    /// Writes once to what is open for the file.
    fn try_write(&mut self, bytes: &[u8]) -> io::Result<usize>
        ensures { IfOk result (λ n. n ≤ length bytes.now) }
    {
        match &mut self.open {
            Some(file) => file.write(bytes),
            None => Err(io::Error::from(ErrorKind::NotFound)),
        }
    }

    /// Syncs what is open for the file to disk.
    fn try_sync(&self) -> io::Result<()> {
        match &self.open {
            Some(file) if self.is_draft => file.sync_all(),
            Some(file) => sync_file(file),
            None => Err(io::Error::from(ErrorKind::NotFound)),
        }
    }

    /// Gives the draft the file's name.
    fn try_place(&mut self) -> io::Result<()> {
        let names = self.names()?;
        self.open = None;
        if self.is_draft {
            if self.replaces {
                name_draft(self.rt, names)?;
            } else {
                name_first_draft(self.rt, names)?;
            }
        }
        Ok(())
    }

    /// Syncs the file's name to disk.
    fn try_sync_name(&self) -> io::Result<()> {
        let names = self.names()?;
        if self.is_draft {
            sync_directory(self.rt, names.directory())?;
        }
        Ok(())
    }

    /// Syncs the draft of a follower to disk.
    fn sync_follower(&mut self, at: usize)
        ensures { self.new.failed ≡ self.old.failed }
    {
        if let Some(follower) = self.followers.get_mut(at) {
            follower.sync_draft(self.rt);
        }
        self.report_trouble(at);
    }

    /// Syncs the folder of a follower to disk, where the follower's name is not on disk yet. A folder that was synced
    /// before is not synced again. Where there is no memory to keep that it was, all followers in it are done at once.
    fn sync_folder_of(&mut self, at: usize, folders: &mut SyncedFolders<'a>)
        ensures { self.new.failed ≡ self.old.failed }
    {
        let directory = match self.followers.get(at) {
            Some(follower) if follower.stage == Stage::Named => follower.names.directory(),
            Some(_) | None => return,
        };
        if let Some(synced) = folders.answer(directory) {
            self.end_naming(at, directory, &synced);
            return;
        }
        let synced = sync_directory(self.rt, directory);
        if folders.keep(directory, &synced) {
            self.end_naming(at, directory, &synced);
        } else {
            self.end_all_in(directory, &synced);
        }
    }

    /// Ends the naming of each follower in a folder that was synced.
    fn end_all_in(&mut self, directory: &str, synced: &io::Result<()>)
        ensures { self.new.failed ≡ self.old.failed }
    {
        for at in 0..self.followers.len() {
            self.end_naming(at, directory, synced);
        }
    }

    /// Ends the naming of a follower whose folder was synced, if its folder is this one.
    fn end_naming(&mut self, at: usize, directory: &str, synced: &io::Result<()>)
        ensures { self.new.failed ≡ self.old.failed }
    {
        let Some(follower) = self.followers.get_mut(at) else {
            return;
        };
        if follower.stage == Stage::Named && follower.names.directory() == directory {
            match synced {
                Ok(()) => follower.stage = Stage::InPlace,
                Err(error) => {
                    follower.stage = Stage::Refused;
                    self.listener.failed(follower.names, error);
                }
            }
        }
    }

    /// Reports why a follower could not be put in place, where that was not reported yet.
    fn report_trouble(&mut self, at: usize)
        ensures { self.new.failed ≡ self.old.failed }
    {
        if let Some(follower) = self.followers.get_mut(at) {
            if let Some(error) = follower.trouble.take() {
                self.listener.failed(follower.names, &error);
            }
        }
    }

    /// Passes on the result of a call for the file. An error is reported to the listener.
    fn heard(&self, done: io::Result<()>) -> Result<(), CallFailed>
        ensures { is_err result ≡ is_err done }
    {
        match done {
            Ok(()) => Ok(()),
            Err(error) => Err(self.fail(&error)),
        }
    }

    /// Reports to the listener why a call for the file failed.
    fn fail(&self, error: &io::Error) -> CallFailed {
        if let Some(names) = self.file {
            self.listener.failed(names, error);
        }
        CallFailed
    }
}

impl<R: Files, L: Listener + Drop> Storage for SystemStorage<'_, R, L> {
    ghost told = { λ _. None };

    ghost may_find = { λ _ _. ⊤ };

    ghost found = { λ _ _. ⊤ };

    ghost may_have = { λ _ _. ⊤ };

    ghost has_failed = { λ p. p.failed };

    fn begin_draft(&mut self) -> Result<(), CallFailed> {
        let done = self.try_begin();
        self.failed = done.is_err();
        self.heard(done)
    }

    fn write_some(&mut self, bytes: &[u8]) -> Result<usize, CallFailed> {
        match self.try_write(bytes) {
            Ok(n) => {
                self.failed = n == 0 && !bytes.is_empty();
                if let Some(names) = self.file {
                    self.listener.wrote(names, n);
                }
                Ok(n)
            }
            Err(error) => {
                self.failed = true;
                Err(self.fail(&error))
            }
        }
    }

    fn sync_draft(&mut self) -> Result<(), CallFailed> {
        let done = self.try_sync();
        self.failed = done.is_err();
        self.heard(done)
    }

    fn put_in_place(&mut self) -> Result<(), CallFailed> {
        let done = self.try_place();
        self.failed = done.is_err();
        self.heard(done)
    }

    fn sync_name(&mut self) -> Result<(), CallFailed> {
        let done = self.try_sync_name();
        self.failed = done.is_err();
        self.heard(done)
    }

    fn drop_draft(&mut self) {
        self.open = None;
        if let Some(names) = self.file {
            if self.is_draft {
                remove_draft(self.rt, names);
            }
        }
    }

    fn followers(&self) -> usize {
        self.followers.len()
    }

    fn is_refused(&self, at: usize) -> bool {
        match self.followers.get(at) {
            Some(follower) => follower.stage == Stage::Refused,
            None => false,
        }
    }

    fn sync_followers(&mut self) {
        for at in 0..self.followers.len() {
            self.sync_follower(at);
        }
    }

    fn put_follower(&mut self, at: usize) -> Result<(), CallFailed> {
        match self.followers.get_mut(at) {
            Some(follower) => follower.take_name(self.rt),
            None => return Err(CallFailed),
        }
        self.report_trouble(at);
        if self.is_refused(at) {
            Err(CallFailed)
        } else {
            Ok(())
        }
    }

    fn sync_follower_names(&mut self) {
        let mut folders = SyncedFolders::none(*self.followers.allocator());
        for at in 0..self.followers.len() {
            self.sync_folder_of(at, &mut folders);
        }
    }

    fn drop_follower(&mut self, at: usize) {
        if let Some(follower) = self.followers.get(at) {
            remove_draft(self.rt, follower.names);
        }
    }
}
