//! The files that a run writes.

use crate::file_names::ack_name;
use crate::run_command::RunWords;
use crate::same_files::is_one_file;
use atomic_file::FileNames;
use cwr_field::Memory;
use std::rt::Files;

/// The files that a run writes, and the names beside them.
#[derive(Drop)]
pub(crate) struct Targets {
    /// The acknowledgements, in the order of the files.
    pub(crate) answers: Vec<FileNames>,
    /// The register, if one is to be written.
    pub(crate) register: Option<FileNames>,
    /// Whether the register may replace an existing file: with `--no-clobber` only the one that the run goes on from.
    pub(crate) replaces_register: bool,
}

impl Targets {
    /// The files that a run of these words writes.
    pub(crate) fn of<R: AllocGlobal + Files>(rt: &R, words: &RunWords) -> Result<Targets, Memory> {
        let answers = answers_to(rt, words.files)?;
        let register = register_of(rt, words.to)?;
        let replaces_register = !words.no_clobber || is_one_file(rt, words.from, words.to);
        Ok(Targets {
            answers,
            register,
            replaces_register,
        })
    }

    /// The lock of the register.
    pub(crate) fn lock(&self) -> Option<&str> {
        match &self.register {
            Some(names) => Some(names.lock()),
            None => None,
        }
    }
}

/// The names of the acknowledgements of these files.
fn answers_to<R: AllocGlobal + Files>(rt: &R, files: &[&str]) -> Result<Vec<FileNames>, Memory> {
    let mut words = Vec::with_capacity(rt.alloc(), files.len())?;
    for file in files {
        words.push(ack_name(rt, file)?)?;
    }
    FileNames::of_words(rt, &words)
}

/// The names of the register that a word leads to, if there is one.
fn register_of<R: AllocGlobal + Files>(
    rt: &R,
    to: Option<&str>,
) -> Result<Option<FileNames>, Memory> {
    match to {
        Some(word) => Ok(Some(FileNames::of_word(rt, word)?)),
        None => Ok(None),
    }
}
