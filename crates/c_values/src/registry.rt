ghost use Rattle.std.specs.Prelude.{◌≡◌, ◌≤◌, [], length, IfOk, OnOk};
ghost use Rattle.work_registry.specs.Numbers.{max_entries};
ghost use Rattle.work_registry.specs.Register.{register_text};
ghost use Rattle.c_values.specs.Registries.{IsReadable, IsRun};

use crate::file_bytes::FileBytes;
use crate::outcome::{Outcome, numbers_of};
use byte_streams::Spool;
use cwr_engine::{Job, MAX_ENTRIES, work_alone};
use cwr_field::Memory;
use cwr_record::Stamp;
use std::alloc::Global;
use std::marker::Model;
use std::mem;
use work_registry::Book;

/// What a handle holds: a book for the greatest number of entries that a book may have, and the acknowledgement of the
/// last file.
///
/// Files are run as session 0, the opening: a book behind a handle is as if it had been read from its register.
#[derive(Drop)]
pub struct Registry {
    book: Book,
    acknowledgement: Vec<u8>,
}

impl Model for Registry {
    ghost use Rattle.std.specs.Prelude.{◌≡◌};
    ghost use Rattle.work_registry.specs.Numbers.{max_entries};
    ghost use Rattle.c_values.specs.RegistryValue.{RegistryValue};

    ghost Value = { RegistryValue };

    ghost view = { λ r. record { history = r.book.history; acknowledgement = r.acknowledgement.items } };

    ghost invariant = { λ r. r.book.limit ≡ max_entries };
}

impl Registry {
    /// The registry of a book, into which no file was run.
    pub fn of(alloc: Global, book: Book) -> Registry
        requires { book.limit ≡ max_entries }
        ensures { result ≡ record { history = book.history; acknowledgement = [] } }
    {
        Registry {
            book,
            acknowledgement: Vec::new(alloc),
        }
    }

    /// Runs a file, and keeps its acknowledgement.
    pub fn run(&mut self, alloc: Global, file: &[u8], stamp: &Stamp) -> Outcome
        ensures { IsRun stamp.now file.now result self.old self.new }
    {
        let book = mem::replace(&mut self.book, Book::new(alloc, MAX_ENTRIES));
        let job = Job {
            reader: FileBytes::new(file),
            writer: Spool::new(alloc),
        };
        let (book, job, outcome) = work_alone(alloc, book, 0, job, stamp);
        let Job { reader: _, writer } = job;
        self.book = book;
        self.acknowledgement = writer.into_bytes();
        numbers_of(&outcome)
    }

    /// The acknowledgement of the file that was run last.
    pub fn acknowledgement(&self) -> &[u8]
        ensures { result.now ≡ self.now.acknowledgement }
    {
        &self.acknowledgement
    }

    /// The number of entries.
    pub fn entries(&self) -> u64
        ensures { result ≡ length self.now.history }
    {
        self.book.len() as u64
    }

    /// The register.
    pub fn register(&self, alloc: Global) -> Result<Vec<u8>, Memory>
        ensures text { IfOk result (λ text. text.items ≡ register_text self.now.history) }
        ensures readable { OnOk result (IsReadable self.now.history) }
    {
        // Looking at the entries gives the proof what holds in every book.
        let _entries = self.book.history().len();
        self.book.write_register(alloc)
    }
}
