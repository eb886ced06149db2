use crate::outcome::FileOutcome;
use std::alloc::{Allocator, Global};
use work_registry::Book;

/// A file to be worked: where its bytes come from, and where its acknowledgement goes.
#[derive(Debug, Drop)]
pub struct Job<R, W> {
    /// The submission file.
    pub reader: R,
    /// The acknowledgement file.
    pub writer: W,
}

/// What a run of all jobs leaves.
#[derive(Drop)]
pub struct Run<R, W, A: Allocator + Copy + Drop = Global> {
    /// The book, with the entries of every job.
    pub book: Book<A>,
    /// How each job ended, in the order of the jobs.
    pub outcomes: Vec<FileOutcome, A>,
    /// The jobs, with what their writers took.
    pub jobs: Vec<Job<R, W>, A>,
}

/// There was no memory for a run, and no job was begun: nothing was read, decided or written.
#[derive(Drop)]
pub struct ServeRefused<R, W, A: Allocator + Copy + Drop = Global> {
    /// The book, as it was.
    pub book: Book<A>,
    /// The jobs, as they were.
    pub jobs: Vec<Job<R, W>, A>,
}
