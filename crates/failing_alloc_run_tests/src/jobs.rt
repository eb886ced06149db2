//! Jobs over files in memory.
ghost use Rattle.std.specs.Prelude.{◌≡◌, ◌≤◌, All, IfOk, false, length, vec_len};

use byte_streams::{Feed, Room};
use cwr_desk::{Job, Memory};
use failing_alloc::FailingAlloc;
use std::alloc::Global;

pub(crate) type MemoryJob<'a> = Job<Feed<'a>, Room>;

/// A job over these bytes.
fn job<'a>(alloc: Global, bytes: &'a [u8]) -> Result<MemoryJob<'a>, Memory>
    ensures { IfOk result (λ j. (j.reader.has_failed ≡ false) × (j.writer.has_failed ≡ false)) }
{
    Ok(Job {
        reader: Feed::new(bytes, 4096, None),
        writer: Room::new(alloc, 1000, true)?,
    })
}

/// A job for each of these files. Only their list is allocated by `memory`.
pub(crate) fn jobs_of<'a, 'm>(
    memory: &'m FailingAlloc,
    alloc: Global,
    files: &[&'a [u8]],
) -> Result<Vec<MemoryJob<'a>, &'m FailingAlloc>, Memory>
    ensures few { IfOk result (λ jobs. vec_len jobs ≤ length files.now) }
    ensures works { IfOk result (λ jobs. All (λ j. (j.reader.has_failed ≡ false) × (j.writer.has_failed ≡ false)) jobs.items) }
{
    let mut jobs = Vec::new(memory);
    for bytes in files {
        jobs.push(job(alloc, bytes)?)?;
    }
    Ok(jobs)
}
