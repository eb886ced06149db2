use crate::FileNames;
use std::io;

/// Is notified of what a storage in the file system does with its files, and why a call failed.
pub trait Listener {
    /// A write to that file took `bytes` bytes.
    fn wrote(&self, names: &FileNames, bytes: usize);

    /// A call for that file failed.
    fn failed(&self, names: &FileNames, error: &io::Error);
}

/// A listener that ignores every notice.
#[derive(Clone, Copy, Debug)]
pub struct Deaf;

impl Listener for Deaf {
    fn wrote(&self, _names: &FileNames, _bytes: usize) {}

    fn failed(&self, _names: &FileNames, _error: &io::Error) {}
}
