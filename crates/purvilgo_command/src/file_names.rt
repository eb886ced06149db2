//! The name of a file's acknowledgement, and whether a file of some name can be written.

ghost use Rattle.std.specs.Prelude.{IfOk, IsTrue, string_bytes};
ghost use Rattle.run_options.specs.RunFault.{is_acknowledgement};

use atomic_file::{FileNames, takes_draft};
use std::alloc::AllocError;
use std::rt::Files;
use std::{fs, io};

/// The number of the system's error that there is no such file.
const NO_SUCH_FILE: i32 = 2;

/// The number of the system's error that a file is a directory.
const IS_A_DIRECTORY: i32 = 21;

/// Whether a draft is made for a file that is to be written. A device or a pipe has none.
///
/// It is an error if the file's name is empty or leads to a directory: no file can be written there.
pub(crate) fn has_draft<R: Files>(rt: &R, names: &FileNames) -> io::Result<bool> {
    let name = names.name();
    if name.is_empty() {
        return Err(io::Error::from_raw_os_error(NO_SUCH_FILE));
    }
    match fs::metadata(rt, name) {
        Ok(found) if found.is_dir() => Err(io::Error::from_raw_os_error(IS_A_DIRECTORY)),
        Ok(_) | Err(_) => Ok(takes_draft(rt, names)),
    }
}

/// The name of the acknowledgement of a file of this name.
pub(crate) fn ack_name<R: AllocGlobal>(rt: &R, file: &str) -> Result<String, AllocError>
    ensures { IfOk result (λ name. IsTrue (is_acknowledgement file.now (string_bytes name))) }
{
    format!(in rt.alloc(); "{file}.ack")
}
