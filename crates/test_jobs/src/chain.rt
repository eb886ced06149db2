//! A chain of runs, each from the register that the one before wrote.
ghost use Rattle.std.specs.Prelude.{◌≤◌};

use crate::jobs::{Input, MemoryRun};
use crate::runs::run_in_turn;
use byte_streams::{Feed, Room};
use cwr_desk::{Book, FileOutcome, Job, Run, read_register};
use std::alloc::Global;
use std::test::Fail;

/// The greatest number of files of a run, and of a group of one of more files.
pub const GROUP: usize = 63;

/// What a chain of runs leaves.
#[derive(Drop)]
pub struct Chain<'a> {
    /// The register that the last run wrote.
    pub register: Vec<u8>,
    /// How the jobs of all runs ended.
    pub outcomes: Vec<FileOutcome>,
    /// These jobs, in the same order.
    pub jobs: Vec<Job<Feed<'a>, Room>>,
}

impl<'a> Chain<'a> {
    /// A chain without a run.
    fn begin(alloc: Global) -> Result<Chain<'a>, Fail> {
        Ok(Chain {
            register: Book::new(alloc, 1).write_register(alloc)?,
            outcomes: Vec::new(alloc),
            jobs: Vec::new(alloc),
        })
    }

    /// Puts one more run behind those before.
    fn put(&mut self, alloc: Global, run: MemoryRun<'a>) -> Result<(), Fail> {
        let Run {
            book,
            mut outcomes,
            mut jobs,
        } = run;
        self.register = book.write_register(alloc)?;
        self.outcomes.append(&mut outcomes)?;
        self.jobs.append(&mut jobs)?;
        Ok(())
    }
}

/// Works at most 63 files from a register, in turn, with a book of `limit` entries.
fn run_from<'a>(
    alloc: Global,
    register: &[u8],
    limit: u32,
    inputs: &[Input<'a>],
) -> Result<MemoryRun<'a>, Fail>
    requires least { 1 ≤ limit }
    requires most { limit ≤ 10000 }
{
    run_in_turn(alloc, read_register(alloc, register, limit)?, inputs)
}

/// Works files in runs of at most 63, the first one with an empty book. Each book has `limit` entries.
pub fn run_chain<'a>(alloc: Global, limit: u32, inputs: &[Input<'a>]) -> Result<Chain<'a>, Fail>
    requires least { 1 ≤ limit }
    requires most { limit ≤ 10000 }
{
    let mut chain = Chain::begin(alloc)?;
    for some in inputs.chunks(GROUP) {
        let run = run_from(alloc, &chain.register, limit, some)?;
        chain.put(alloc, run)?;
    }
    Ok(chain)
}
