//! The folders of followers, each of which is synced to disk once.

use crate::rounds::Answer;
use std::alloc::Global;
use std::collections::HashMap;
use std::io;

/// Folders that were synced to disk, by their names, and how that ended.
#[derive(Drop)]
pub(crate) struct SyncedFolders<'a> {
    answers: HashMap<&'a str, Answer>,
}

impl<'a> SyncedFolders<'a> {
    /// No folder was synced.
    pub(crate) fn none(alloc: Global) -> SyncedFolders<'a> {
        SyncedFolders {
            answers: HashMap::new(alloc),
        }
    }

    /// How the sync of a folder ended, where that was kept.
    pub(crate) fn answer(&self, directory: &str) -> Option<io::Result<()>> {
        self.answers.get(directory)?.sync_result()
    }

    /// Keeps how the sync of a folder ended, and returns whether there was memory for that.
    pub(crate) fn keep(&mut self, directory: &'a str, synced: &io::Result<()>) -> bool {
        let answer = Answer::none();
        answer.keep(synced);
        self.answers.insert(directory, answer).is_ok()
    }
}
