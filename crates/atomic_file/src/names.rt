//! The names of a file that is replaced by a draft.

ghost use Rattle.std.specs.Prelude.{◌≡◌, ◌++◌, codes, map, string_bytes, IfOk, IfSome, IsSomeAnd, OnOk};
ghost use Rattle.std.specs.Path.{path_bytes, path_buf_bytes, path_join};
ghost use Rattle.atomic_file.specs.FileWords.{directory_of};

use cwr_field::Memory;
use std::alloc::Global;
use std::io::ErrorKind;
use std::marker::Model;
use std::path::{Path, PathBuf};
use std::rt::Files;
use std::{fs, io};

/// How many links are followed to a file that is not there yet.
const MAX_LINKS: u32 = 40;

/// The name that is used for a directory without one.
const HERE: &str = ".";

/// The greatest length in bytes of a path that the system still accepts with `.lock` behind it.
const MAX_PATH: usize = 4090;

/// A file that is replaced by a draft, and the names beside it.
///
/// They are the names of the file that a word leads to, through any number of links. So a link stays a link.
#[derive(Debug, Drop)]
pub struct FileNames {
    word: String,
    name: String,
    draft: String,
    lock: String,
    directory: String,
}

impl Model for FileNames {
    ghost use Rattle.std.specs.Prelude.{◌≡◌, ◌++◌, codes, string_bytes};
    ghost use Rattle.atomic_file.specs.FileWords.{FileWords, directory_of};

    ghost Value = { FileWords };

    ghost view = { λ n. record {
      word = string_bytes n.word;
      name = string_bytes n.name;
    } };

    ghost invariant = { λ n.
        (string_bytes n.draft ≡ string_bytes n.name ++ codes ".new")
        × (string_bytes n.lock ≡ string_bytes n.name ++ codes ".lock")
        × (string_bytes n.directory ≡ directory_of (string_bytes n.name)) };
}

impl FileNames {
    /// The names of the file that a word leads to. Where the system does not report that file, the word is the name.
    pub fn of_word<R: AllocGlobal + Files>(rt: &R, word: &str) -> Result<FileNames, Memory>
        ensures { IfOk result (λ names. names.word ≡ word.now) }
    {
        FileNames::found_in(rt, &mut Folder::none(rt.alloc()), word)
    }

    /// The names of the files that these words lead to, in the order of the words, as [`FileNames::of_word`] finds
    /// them.
    ///
    /// Where words that follow one another are in one folder, the system is asked for that folder once.
    pub fn of_words<R: AllocGlobal + Files>(
        rt: &R,
        words: &[String],
    ) -> Result<Vec<FileNames>, Memory>
        ensures { IfOk result (λ all. map (λ names. names.word) all.items ≡ map (λ word. string_bytes word) words.now) }
    {
        let mut folder = Folder::none(rt.alloc());
        let mut all = Vec::with_capacity(rt.alloc(), words.len())?;
        for word in words {
            all.push(FileNames::found_in(rt, &mut folder, word.as_str())?)?;
        }
        Ok(all)
    }

    /// The names of the file that a word leads to. `folder` is the folder that the system was last asked for.
    fn found_in<R: AllocGlobal + Files>(
        rt: &R,
        folder: &mut Folder,
        word: &str,
    ) -> Result<FileNames, Memory>
        ensures { IfOk result (λ names. names.word ≡ word.now) }
    {
        let path = file_of(rt, folder, word)?;
        let name = path.as_path().as_os_str();
        let alloc = rt.alloc();
        Ok(FileNames {
            word: String::from_str(alloc, word)?,
            name: String::from_str(alloc, name)?,
            draft: format!(in alloc; "{name}.new")?,
            lock: format!(in alloc; "{name}.lock")?,
            directory: String::from_str(alloc, directory_of(path.as_path()))?,
        })
    }

    /// The word that leads to the file.
    pub fn word(&self) -> &str
        ensures { result.now ≡ self.now.word }
    {
        self.word.as_str()
    }

    /// The file itself.
    pub fn name(&self) -> &str
        ensures { result.now ≡ self.now.name }
    {
        self.name.as_str()
    }

    /// The draft: the file's name and `.new`.
    pub fn draft(&self) -> &str
        ensures { result.now ≡ self.now.name ++ codes ".new" }
    {
        self.draft.as_str()
    }

    /// The file that a run locks while it may replace this one: the file's name and `.lock`.
    pub fn lock(&self) -> &str
        ensures { result.now ≡ self.now.name ++ codes ".lock" }
    {
        self.lock.as_str()
    }

    /// The directory in which all of them lie.
    pub fn directory(&self) -> &str
        ensures { result.now ≡ directory_of self.now.name }
    {
        self.directory.as_str()
    }
}

/// The directory of a file of this path, as a name that the system can be asked for.
fn directory_of(path: Path<'_>) -> &str
    ensures { result.now ≡ directory_of (path_bytes path.entry) }
{
    match path.parent() {
        Some(parent) if !parent.as_os_str().is_empty() => parent.as_os_str(),
        Some(_) | None => HERE,
    }
}

/// A folder that the system was asked for.
#[derive(Drop)]
struct Folder {
    /// Its name, as a word gives it.
    given: String,
    /// Where that leads, through any number of links; `None` where the system did not report it.
    path: Option<PathBuf>,
}

impl Folder {
    /// No folder was asked for.
    fn none(alloc: Global) -> Folder {
        Folder {
            given: String::new(alloc),
            path: None,
        }
    }

    /// Asks the system for the folder of this name, unless it was asked for last.
    fn ask<R: AllocGlobal + Files>(&mut self, rt: &R, name: &str) -> Result<(), Memory>
        ensures { OnOk result (string_bytes self.new.given ≡ name.now) }
    {
        if self.given.as_str() != name {
            self.path = found_path(fs::canonicalize(rt, name))?;
            self.given = String::from_str(rt.alloc(), name)?;
        }
        Ok(())
    }

    /// The path of a file of that name in the folder; `None` where the system did not report the folder, or where the
    /// path is too long.
    fn path_of(&self, alloc: Global, file: &str) -> Result<Option<PathBuf>, Memory>
        ensures { IfOk result (λ found. IfSome found (λ path. IsSomeAnd self.now.path (λ folder. path_buf_bytes path ≡ path_join (path_buf_bytes folder) file.now))) }
    {
        let Some(folder) = &self.path else {
            return Ok(None);
        };
        let path = folder.join(alloc, file)?;
        let is_taken = path.as_path().as_os_str().len() <= MAX_PATH;
        Ok(if is_taken { Some(path) } else { None })
    }
}

/// The file that a word leads to, which need not be there.
fn file_of<R: AllocGlobal + Files>(
    rt: &R,
    folder: &mut Folder,
    word: &str,
) -> Result<PathBuf, Memory> {
    match found_path(fs::read_link(rt, word))? {
        Some(_) => linked_file(rt, word),
        None => file_in(rt, folder, word),
    }
}

/// The file of a word that is no link: in the folder that the word names, wherever that lies.
fn file_in<R: AllocGlobal + Files>(
    rt: &R,
    folder: &mut Folder,
    word: &str,
) -> Result<PathBuf, Memory> {
    if let Some((before, file)) = word.rsplit_once('/') {
        folder.ask(rt, before)?;
        if let Some(path) = folder.path_of(rt.alloc(), file)? {
            return Ok(path);
        }
    }
    Ok(PathBuf::from_str(rt.alloc(), word)?)
}

/// The file that a link leads to.
fn linked_file<R: AllocGlobal + Files>(rt: &R, word: &str) -> Result<PathBuf, Memory> {
    if let Some(path) = found_path(fs::canonicalize(rt, word))? {
        return Ok(path);
    }
    let mut path = PathBuf::from_str(rt.alloc(), word)?;
    for _ in 0..MAX_LINKS {
        let Some(target) = found_path(fs::read_link(rt, path.as_path()))? else {
            return Ok(path);
        };
        path.pop();
        path.push(target.as_path())?;
    }
    Ok(path)
}

/// The path that the system returned; `None` for any error other than out of memory.
fn found_path(answer: io::Result<PathBuf>) -> Result<Option<PathBuf>, Memory> {
    match answer {
        Ok(path) => Ok(Some(path)),
        Err(error) if error.kind() == ErrorKind::OutOfMemory => Err(Memory),
        Err(_) => Ok(None),
    }
}
