//! A lock for the length of a run.

ghost use Rattle.std.specs.Prelude.{⊤, IfOk, IfSome, IsTrue};

use crate::CallFailed;
use std::fs::{File, TryLockError};
use std::rt::Files;

/// An open file that one run at a time may have for itself. The system frees it when that run ends, however it ends.
pub trait Exclusive {
    // This run has the file for itself, where the type models that.
    ghost is_taken: { Self → Type 0 } = { λ _. ⊤ };

    /// Takes the file for this run. It returns `false` where another run has it, and does not wait.
    fn try_exclusive(&self) -> Result<bool, CallFailed>
        ensures { IfOk result (λ free. IsTrue free → is_taken self.now) };
}

impl Exclusive for File {
    fn try_exclusive(&self) -> Result<bool, CallFailed> {
        match self.try_lock() {
            Ok(()) => Ok(true),
            Err(TryLockError::WouldBlock) => Ok(false),
            Err(TryLockError::Error(_)) => Err(CallFailed),
        }
    }
}

/// Takes the lock file of this name for this run, and returns it; `None` where another run has it.
///
/// The lock is an empty file, which is created where it is not there, and is left there. This run has it for itself
/// until the returned file is dropped.
pub fn lock<R: Files>(rt: &R, name: &str) -> Result<Option<R::File>, CallFailed>
where
    R::File: Exclusive,
    ensures { IfOk result (λ held. IfSome held (λ file. R.File.is_taken file)) }
{
    let opened = File::options().write(true).create(true).open(rt, name);
    let file = opened.map_err(|_| CallFailed)?;
    Ok(if file.try_exclusive()? {
        Some(file)
    } else {
        None
    })
}
