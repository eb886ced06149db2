//! Drafts in the file system.

ghost use Rattle.std.specs.Prelude.{◌≢◌, ◌≡◌, ◌⊎◌, ◌↔◌, IsTrue};
ghost use Rattle.std.specs.IoError.{error_kind};

use crate::FileNames;
use std::fs::{File, Metadata, OpenFile, OpenOptions};
use std::io::ErrorKind;
use std::os::unix::fs::{MetadataExt, OpenOptionsExt, chown};
use std::rt::Files;
use std::{fs, io};

/// The mode of a draft until it has the permissions of the file that it is to replace: only its owner may read and
/// write it.
const OWNER_ALONE: u32 = 0o600;

/// Whether a draft is made for a file: for a regular file, and for one that is not there yet. It is also made for a
/// folder, though it can never take the folder's name.
///
/// Anything else, such as a device or a pipe, is written in place.
pub fn takes_draft<R: Files>(rt: &R, names: &FileNames) -> bool {
    match fs::metadata(rt, names.name()) {
        Ok(found) => found.is_file() || found.is_dir(),
        Err(_) => true,
    }
}

/// Opens what is to be written for a file: a new draft; or, where the file takes no draft, as a device, the file
/// itself, emptied.
///
/// A draft that is there already, as after a crash, is removed first. The new one gets the permissions of the file that
/// it is to replace, and its owner where the system allows that. A file that is there and may not be written is an
/// error, although a draft could be made beside it.
pub fn open_draft<R: Files>(rt: &R, names: &FileNames) -> io::Result<R::File> {
    let old = match fs::metadata(rt, names.name()) {
        Ok(old) if old.is_file() => old,
        Ok(old) if !old.is_dir() => return fs::create(rt, names.name()),
        Ok(_) | Err(_) => return new_draft(rt, names, File::options().write(true)),
    };
    let _writable = File::options().write(true).open(rt, names.name())?;
    let draft = new_draft(rt, names, File::options().write(true).mode(OWNER_ALONE))?;
    take_owner(rt, names, &old);
    take_permissions(&draft, &old)?;
    Ok(draft)
}

/// Creates the draft. What lies under its name, as a crash leaves it, is removed, but only once the system reported
/// that something lies there.
///
/// `options` are those that the draft is opened with; this call adds `create_new`.
fn new_draft<R: Files>(
    rt: &R,
    names: &FileNames,
    options: &mut OpenOptions,
) -> io::Result<R::File> {
    options.create_new(true);
    match options.open(rt, names.draft()) {
        Err(error) if error.kind() == ErrorKind::AlreadyExists => {
            remove_draft(rt, names);
            options.open(rt, names.draft())
        }
        opened => opened,
    }
}

/// Whose a file is, by the numbers of the system.
#[derive(Clone, Copy, PartialEq, Eq)]
struct Owner {
    user: u32,
    group: u32,
}

impl Owner {
    /// The owner of this file.
    fn of(file: &Metadata) -> Owner {
        Owner {
            user: file.uid(),
            group: file.gid(),
        }
    }

    /// Whether the user is another, or the group.
    fn differs(self, other: Owner) -> bool
        ensures { IsTrue result ↔ (self ≢ other) }
    {
        self != other
    }
}

/// Gives the draft the owner and group of the old file, where they differ and the system allows it.
fn take_owner<R: Files>(rt: &R, names: &FileNames, old: &Metadata) {
    let owner = Owner::of(old);
    if let Ok(draft) = fs::metadata(rt, names.draft()) {
        if Owner::of(&draft).differs(owner) {
            let _ = chown(rt, names.draft(), Some(owner.user), Some(owner.group));
        }
    }
}

/// Gives the draft the permissions of the old file, where the system supports permissions.
fn take_permissions<F: OpenFile>(draft: &F, old: &Metadata) -> io::Result<()> {
    match draft.set_permissions(old.permissions()) {
        Err(error) if error.kind() != ErrorKind::Unsupported => Err(error),
        Ok(()) | Err(_) => Ok(()),
    }
}

/// Removes the draft of a file, where there is one and it can be removed. A file that takes no draft has none.
pub fn remove_draft<R: Files>(rt: &R, names: &FileNames) {
    let _ = fs::remove_file(rt, names.draft());
}

/// Syncs the draft of a file to disk.
pub fn sync_draft<R: Files>(rt: &R, names: &FileNames) -> io::Result<()> {
    fs::open(rt, names.draft())?.sync_all()
}

/// Gives the draft of a file the file's name, in place of what lies there.
pub fn name_draft<R: Files>(rt: &R, names: &FileNames) -> io::Result<()> {
    fs::rename(rt, names.draft(), names.name())
}

/// Gives the draft of a file the file's name. It is an error where a file lies there already.
///
/// Where the system has no hard links, an empty file holds the name until the draft has it.
pub fn name_new_draft<R: Files>(rt: &R, names: &FileNames) -> io::Result<()> {
    match link_draft(rt, names) {
        Err(error) if has_no_links(&error) => {
            let _held = File::create_new(rt, names.name())?;
            name_draft(rt, names)
        }
        linked => linked,
    }
}

/// Gives the draft of a file the file's name. It is an error where a file lies there already.
///
/// Where the system has no hard links, this call looks for such a file and then renames. So nobody finds an empty file
/// meanwhile, but a file that appears between these two steps is replaced.
pub fn name_first_draft<R: Files>(rt: &R, names: &FileNames) -> io::Result<()> {
    match link_draft(rt, names) {
        Err(error) if has_no_links(&error) => {
            if fs::symlink_metadata(rt, names.name()).is_ok() {
                return Err(io::Error::from(ErrorKind::AlreadyExists));
            }
            name_draft(rt, names)
        }
        linked => linked,
    }
}

/// Gives the draft of a file the file's name as a hard link, and removes the draft's own name.
fn link_draft<R: Files>(rt: &R, names: &FileNames) -> io::Result<()> {
    fs::hard_link(rt, names.draft(), names.name())?;
    remove_draft(rt, names);
    Ok(())
}

/// Whether the system refuses every hard link.
fn has_no_links(error: &io::Error) -> bool
    ensures { IsTrue result ↔ ((error_kind error.now ≡ ErrorKind.Unsupported) ⊎ (error_kind error.now ≡ ErrorKind.PermissionDenied)) }
{
    matches!(
        error.kind(),
        ErrorKind::Unsupported | ErrorKind::PermissionDenied
    )
}

/// Syncs an open file to disk, where it lies on one.
pub fn sync_file<F: OpenFile>(file: &F) -> io::Result<()> {
    match file.sync_all() {
        Err(error) if !is_on_no_disk(&error) => Err(error),
        Ok(()) | Err(_) => Ok(()),
    }
}

/// Syncs the names in a directory to disk, where the system allows a directory to be opened and synced.
pub fn sync_directory<R: Files>(rt: &R, directory: &str) -> io::Result<()> {
    match fs::open(rt, directory) {
        Ok(opened) => sync_file(&opened),
        Err(error) if error.kind() == ErrorKind::PermissionDenied || is_on_no_disk(&error) => Ok(
            (),
        ),
        Err(error) => Err(error),
    }
}

/// Whether the system reports that this is nothing that can be synced to disk.
fn is_on_no_disk(error: &io::Error) -> bool
    ensures { IsTrue result ↔ ((error_kind error.now ≡ ErrorKind.InvalidInput) ⊎ (error_kind error.now ≡ ErrorKind.Unsupported) ⊎ (error_kind error.now ≡ ErrorKind.IsADirectory)) }
{
    matches!(
        error.kind(),
        ErrorKind::InvalidInput | ErrorKind::Unsupported | ErrorKind::IsADirectory
    )
}
