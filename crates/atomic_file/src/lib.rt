//! A file that is replaced as one, and files that follow it.
//!
//! Whoever looks under the file's name, at any moment and after any crash, finds the old file or the new one, each
//! complete. The files that follow take their names only once the new file is on disk.
#![tactic(auto)]

mod chunks;
mod draft;
mod exclusive;
mod failed;
mod folders;
mod following;
mod keeping;
mod listener;
mod memory;
mod names;
mod rounds;
mod storage;
mod system;

pub use chunks::Chunks;
pub use cwr_field::Memory;
pub use draft::{open_draft, remove_draft, takes_draft};
pub use exclusive::{Exclusive, lock};
pub use failed::{CallFailed, KeepError};
pub use following::{drop_followers, put_followers};
pub use keeping::{keep, keep_chunks, replace, replace_chunks};
pub use listener::{Deaf, Listener};
pub use memory::{MemoryFile, MemoryStorage};
pub use names::FileNames;
pub use storage::Storage;
pub use system::{Follower, SystemStorage, sync_drafts};
