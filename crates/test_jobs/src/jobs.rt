//! Jobs over files in memory.
ghost use Rattle.std.specs.Prelude.{◌≡◌, ◌≤◌, All, IfOk, false, length, vec_len};

use byte_streams::{Feed, Room};
use cwr_desk::{Job, Run};
use std::alloc::Global;
use std::test::Fail;

/// The number of bytes that a read gives at most, unless another is given.
const CHUNK: usize = 4096;

/// A file to be worked.
#[derive(Clone, Copy)]
pub struct Input<'a> {
    /// Its bytes.
    pub bytes: &'a [u8],
    /// The number of bytes that a read gives at most. A read gives at least one.
    pub chunk: usize,
    /// The read at which its reader fails, counted from 1, if one does.
    pub fail: Option<u64>,
    /// The number of bytes that its writer takes before it fails.
    pub capacity: usize,
}

/// What a run over files in memory leaves.
pub type MemoryRun<'a> = Run<Feed<'a>, Room>;

pub(crate) type MemoryJob<'a> = Job<Feed<'a>, Room>;

/// A file whose reader does not fail, with room for its acknowledgement.
pub fn whole(bytes: &[u8]) -> Input<'_> {
    with_room(bytes, 1000)
}

/// A file whose reader does not fail, with room for `capacity` bytes of its acknowledgement.
pub fn with_room(bytes: &[u8], capacity: usize) -> Input<'_> {
    Input {
        bytes,
        chunk: CHUNK,
        fail: None,
        capacity,
    }
}

/// These files, each with room for `capacity` bytes of its acknowledgement.
pub fn all_with_room<'a>(
    alloc: Global,
    files: &'a [Vec<u8>],
    capacity: usize,
) -> Result<Vec<Input<'a>>, Fail> {
    let mut inputs = Vec::new(alloc);
    for file in files {
        inputs.push(with_room(file, capacity))?;
    }
    Ok(inputs)
}

/// A file whose reader fails at its first read, with room for an acknowledgement.
pub fn unread(bytes: &[u8]) -> Input<'_> {
    Input {
        fail: Some(1),
        ..whole(bytes)
    }
}

/// A job for a file.
fn job<'a>(alloc: Global, input: Input<'a>) -> Result<MemoryJob<'a>, Fail>
    ensures { IfOk result (λ j. (j.reader.has_failed ≡ false) × (j.writer.has_failed ≡ false)) }
{
    let Input {
        bytes,
        chunk,
        fail,
        capacity,
    } = input;
    Ok(Job {
        reader: Feed::new(bytes, chunk.max(1), fail),
        writer: Room::new(alloc, capacity, true)?,
    })
}

/// A job for each of these files.
pub(crate) fn jobs_of<'a>(alloc: Global, inputs: &[Input<'a>]) -> Result<Vec<MemoryJob<'a>>, Fail>
    ensures few { IfOk result (λ jobs. vec_len jobs ≤ length inputs.now) }
    ensures works { IfOk result (λ jobs. All (λ j. (j.reader.has_failed ≡ false) × (j.writer.has_failed ≡ false)) jobs.items) }
{
    let mut jobs = Vec::new(alloc);
    for input in inputs {
        jobs.push(job(alloc, *input)?)?;
    }
    Ok(jobs)
}
