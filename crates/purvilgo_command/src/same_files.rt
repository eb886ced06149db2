//! Whether a file that the words of a run lead to would be written over what is read, or twice.

use crate::targets::Targets;
use atomic_file::FileNames;
use cwr_field::Memory;
use indexmap::IndexMap;
use std::alloc::Global;
use std::fs::{self, Metadata};
use std::io::ErrorKind;
use std::os::unix::fs::MetadataExt;
use std::path::Path;
use std::rt::Files;

/// What a directory without a name is called.
const HERE: &str = ".";

/// An existing file or directory: its device, and its number on it.
#[derive(Clone, Copy, PartialEq, Eq, Hash)]
struct Node {
    device: u64,
    number: u64,
}

/// Where a name leads.
#[derive(PartialEq, Eq, Hash, Drop)]
enum FileIdentity {
    /// To an existing file.
    Taken(Node),
    /// To none: a file that is made gets this name in this directory.
    Free(Node, String),
    /// The system does not say.
    Unprinted,
}

impl FileIdentity {
    /// Whether the system says where the name leads.
    fn is_known(&self) -> bool {
        match self {
            FileIdentity::Unprinted => false,
            FileIdentity::Taken(_) | FileIdentity::Free(_, _) => true,
        }
    }

    /// Whether both lead to one file.
    fn is_one_with(&self, other: &FileIdentity) -> bool {
        self.is_known() && self == other
    }
}

/// The places of some files that a run writes, and of what lies beside each.
#[derive(Drop)]
struct Written {
    /// The files themselves.
    files: Vec<FileIdentity>,
    /// Their drafts, in the same order.
    drafts: Vec<FileIdentity>,
}

impl Written {
    /// The places of the files that a run writes: the acknowledgements, and behind them the register.
    fn of<'a, R: AllocGlobal + Files>(
        finder: &mut Finder<'a, R>,
        targets: &'a Targets,
    ) -> Result<Written, Memory> {
        let alloc = finder.rt.alloc();
        let mut written = Written {
            files: Vec::new(alloc),
            drafts: Vec::new(alloc),
        };
        for names in &targets.answers {
            written.add(finder, names)?;
        }
        if let Some(register) = &targets.register {
            written.add(finder, register)?;
        }
        Ok(written)
    }

    /// One file more.
    fn add<'a, R: AllocGlobal + Files>(
        &mut self,
        finder: &mut Finder<'a, R>,
        names: &'a FileNames,
    ) -> Result<(), Memory> {
        self.files.push(finder.place_of(names.name())?)?;
        self.drafts.push(finder.place_of(names.draft())?)?;
        Ok(())
    }

    /// Whether one of them, or one of their drafts, is a place.
    fn has(&self, place: &FileIdentity) -> bool {
        is_among(place, &self.files) || is_among(place, &self.drafts)
    }
}

/// Some places, none of which is one with another: of each its position among them.
#[derive(Drop)]
struct Positions<'p> {
    of_places: IndexMap<&'p FileIdentity, usize>,
}

impl<'p> Positions<'p> {
    /// Those of these places, or `None` where two of them are one.
    fn of(alloc: Global, places: &'p [FileIdentity]) -> Result<Option<Positions<'p>>, Memory> {
        let mut of_places = IndexMap::with_capacity(alloc, places.len())?;
        for (position, place) in places.iter().enumerate() {
            if place.is_known() && of_places.insert(place, position)?.is_some() {
                return Ok(None);
            }
        }
        Ok(Some(Positions { of_places }))
    }

    /// Whether one of some other places is among them.
    fn have_any(&self, others: &[FileIdentity]) -> bool {
        for other in others {
            if self.of_places.get(&other).is_some() {
                return true;
            }
        }
        false
    }

    /// Whether one of some other places is among them, at another position than there.
    fn have_any_elsewhere(&self, others: &[FileIdentity]) -> bool {
        for (position, other) in others.iter().enumerate() {
            if self
                .of_places
                .get(&other)
                .is_some_and(|found| *found != position)
            {
                return true;
            }
        }
        false
    }
}

/// Whether a run on these files would write over what it reads, or twice over one file. It would if an acknowledgement
/// or the register `to` is one file of the system with another of these or with one of the files, or if the register
/// `from` is one with an acknowledgement. The same holds of their drafts and of the register's lock, which `from` may
/// not be one with either. Two of the files may be one: each has its own acknowledgement.
///
/// Files are one if they have one device and number, so by any path and by any link. A name that leads to no file
/// counts as the name of its directory in which the file would be made. A name of which the system says nothing is one
/// with no other. A draft may be one with the file that it is to replace: it is made again before it is written.
pub(crate) fn is_one_file_twice<'a, R: AllocGlobal + Files>(
    rt: &'a R,
    files: &'a [&'a str],
    from: Option<&'a str>,
    targets: &'a Targets,
) -> Result<bool, Memory> {
    let places = FileIdentities::of(rt, files, from, targets)?;
    places.has_one_twice(rt.alloc())
}

/// Whether both words are given, and lead to one file.
pub(crate) fn is_one_file<R: Files>(rt: &R, one: Option<&str>, other: Option<&str>) -> bool {
    match (one, other) {
        (Some(one), Some(other)) => {
            one == other || node_of(rt, one).is_some_and(|node| node_of(rt, other) == Some(node))
        }
        _ => false,
    }
}

/// The places of all files of a run.
#[derive(Drop)]
struct FileIdentities {
    /// The files that it acknowledges.
    read: Vec<FileIdentity>,
    /// The register that it begins with, if there is one.
    begun: FileIdentity,
    /// The files that it writes.
    written: Written,
    /// The number of these that are acknowledgements.
    answers: usize,
    /// The lock of the register that it writes, if it writes one.
    lock: FileIdentity,
}

impl FileIdentities {
    /// The places of these files.
    fn of<'a, R: AllocGlobal + Files>(
        rt: &'a R,
        files: &'a [&'a str],
        from: Option<&'a str>,
        targets: &'a Targets,
    ) -> Result<FileIdentities, Memory> {
        let mut finder = Finder::new(rt);
        let written = Written::of(&mut finder, targets)?;
        let read = finder.places_of(files)?;
        let begun = finder.place_if(from)?;
        let lock = finder.place_if(targets.lock())?;
        Ok(FileIdentities {
            read,
            begun,
            written,
            answers: targets.answers.len(),
            lock,
        })
    }

    /// Whether the run would write over what it reads, or twice over one of them. The time that it takes grows as the
    /// number of files does.
    fn has_one_twice(&self, alloc: Global) -> Result<bool, Memory> {
        if self.answers_its_register()
            || self.locks_another()
            || is_among(&self.begun, &self.written.drafts)
        {
            return Ok(true);
        }
        let Some(files) = Positions::of(alloc, &self.written.files)? else {
            return Ok(true);
        };
        let Some(drafts) = Positions::of(alloc, &self.written.drafts)? else {
            return Ok(true);
        };
        Ok(
            files.have_any(&self.read)
                || drafts.have_any(&self.read)
                || files.have_any_elsewhere(&self.written.drafts),
        )
    }

    /// Whether the register that the run begins with is one of the acknowledgements.
    fn answers_its_register(&self) -> bool {
        let answers = self.written.files.get(..self.answers).unwrap_or(&[]);
        is_among(&self.begun, answers)
    }

    /// Whether the lock is one of the other files.
    fn locks_another(&self) -> bool {
        self.lock.is_one_with(&self.begun)
            || is_among(&self.lock, &self.read)
            || self.written.has(&self.lock)
    }
}

/// Whether a place is one of some others.
fn is_among(place: &FileIdentity, others: &[FileIdentity]) -> bool {
    for other in others {
        if place.is_one_with(other) {
            return true;
        }
    }
    false
}

/// Finds where names lead. For names that follow one another in one directory, the system is asked for that directory
/// once.
#[derive(Drop)]
struct Finder<'a, R> {
    rt: &'a R,
    /// The directory that it was asked for last.
    directory: Option<(&'a str, Option<Node>)>,
}

impl<'a, R: AllocGlobal + Files> Finder<'a, R> {
    /// A finder that has asked for no directory.
    fn new(rt: &'a R) -> Finder<'a, R> {
        Finder {
            rt,
            directory: None,
        }
    }

    /// The places of files of these names.
    fn places_of(&mut self, names: &'a [&'a str]) -> Result<Vec<FileIdentity>, Memory> {
        let mut places = Vec::with_capacity(self.rt.alloc(), names.len())?;
        for name in names {
            places.push(self.place_of(name)?)?;
        }
        Ok(places)
    }

    /// Where a name leads, if there is one.
    fn place_if(&mut self, name: Option<&'a str>) -> Result<FileIdentity, Memory> {
        match name {
            Some(name) => self.place_of(name),
            None => Ok(FileIdentity::Unprinted),
        }
    }

    /// Where a name leads. Only a link to no file is followed, by the names in it. Any other name is where it says.
    fn place_of(&mut self, name: &'a str) -> Result<FileIdentity, Memory> {
        match fs::symlink_metadata(self.rt, name) {
            Ok(found) if found.is_symlink() => linked_place(self.rt, name),
            Ok(found) => match node_in(&found) {
                Some(node) => Ok(FileIdentity::Taken(node)),
                None => self.free_place(name),
            },
            Err(error) if error.kind() == ErrorKind::OutOfMemory => Err(Memory),
            Err(_) => self.free_place(name),
        }
    }

    /// The place of a file that would be made under this name.
    fn free_place(&mut self, name: &'a str) -> Result<FileIdentity, Memory> {
        let directory = self.node_of(directory_of(Path::new(name)));
        free_place(self.rt.alloc(), name, directory)
    }

    /// The directory of this name.
    fn node_of(&mut self, directory: &'a str) -> Option<Node> {
        let last = self.directory;
        match last {
            Some((name, node)) if name == directory => node,
            _ => {
                let node = node_of(self.rt, directory);
                self.directory = Some((directory, node));
                node
            }
        }
    }
}

/// Where a link leads.
fn linked_place<R: AllocGlobal + Files>(rt: &R, name: &str) -> Result<FileIdentity, Memory> {
    if let Some(node) = node_of(rt, name) {
        return Ok(FileIdentity::Taken(node));
    }
    let names = FileNames::of_word(rt, name)?;
    free_place(rt.alloc(), names.name(), node_of(rt, names.directory()))
}

/// The place of a file that would be made under this name in this directory.
fn free_place(alloc: Global, name: &str, directory: Option<Node>) -> Result<FileIdentity, Memory> {
    match (Path::new(name).file_name(), directory) {
        (Some(file), Some(node)) => Ok(FileIdentity::Free(node, String::from_str(alloc, file)?)),
        _ => Ok(FileIdentity::Unprinted),
    }
}

/// The directory in which a file of this name lies.
fn directory_of(path: Path<'_>) -> &str {
    match path.parent() {
        Some(parent) if !parent.as_os_str().is_empty() => parent.as_os_str(),
        Some(_) | None => HERE,
    }
}

/// The file or the directory that a name leads to.
fn node_of<R: Files>(rt: &R, name: &str) -> Option<Node> {
    node_in(&fs::metadata(rt, name).ok()?)
}

/// The numbers of a file or a directory. A runtime other than the system's gives none: each number is 0.
fn node_in(found: &Metadata) -> Option<Node> {
    let node = Node {
        device: found.dev(),
        number: found.ino(),
    };
    if node.device == 0 && node.number == 0 {
        None
    } else {
        Some(node)
    }
}
