//! Files whose changes are counted, of which one may be refused.

use crate::fake_files::KeptFile;
use std::alloc::Global;
use std::fs::Metadata;
use std::io::{self, ErrorKind};
use std::sync::{Mutex, MutexGuard};
use std::test::Fail;
use std::thread::yield_now;

/// The number of times that a thread looks whether another one counts a call.
const MAX_LOOKS: u32 = 1_000_000;

/// The calls that were made so far.
#[derive(Drop)]
pub struct Calls {
    alloc: Global,
    /// What each does, and to which file.
    made: Mutex<Vec<String>>,
    /// The number of the call that is refused, from 1; 0 for none.
    refused: usize,
    /// What is refused each time.
    always: &'static str,
}

impl Calls {
    /// No calls so far. The call with number `refused` will be refused, and each that does `always`.
    pub fn refusing(alloc: Global, refused: usize, always: &'static str) -> Calls {
        Calls {
            alloc,
            made: Mutex::new(Vec::new(alloc)),
            refused,
            always,
        }
    }

    /// Counts a call, which may be refused.
    pub(crate) fn make(&self, what: &'static str, name: &str) -> io::Result<()> {
        let mut made = self.hold()?;
        made.push(format!(in self.alloc; "{what} {name}")?)?;
        if made.len() == self.refused || what == self.always {
            return Err(io::Error::from(ErrorKind::Other));
        }
        Ok(())
    }

    /// The calls so far, once no other thread counts one.
    fn hold(&self) -> io::Result<MutexGuard<'_, Vec<String>>> {
        for _ in 0..MAX_LOOKS {
            if let Some(made) = self.made.try_lock() {
                return Ok(made);
            }
            yield_now();
        }
        Err(io::Error::from(ErrorKind::Other))
    }

    /// The calls that were made, in their order, a line each.
    pub fn made(&self) -> Result<String, Fail> {
        let made = self.made.try_lock().ok_or("calls that nobody makes")?;
        let mut text = String::new(self.alloc);
        for call in made.as_slice() {
            text.push_str(call.as_str())?;
            text.push_str("\n")?;
        }
        Ok(text)
    }
}

/// Files that can be written, with what was done to them.
#[derive(Drop)]
pub struct Disk<'a> {
    pub files: Vec<KeptFile<'a>>,
    pub calls: Calls,
    /// What the system says of names.
    pub nodes: Vec<(&'a str, Metadata)>,
    /// The names that are links, and to what.
    pub links: &'a [(&'a str, &'a str)],
    /// The locks that another run has.
    pub locked: &'a [&'a str],
}
