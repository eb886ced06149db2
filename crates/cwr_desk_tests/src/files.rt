//! Files of the profile, and the outcome of each.

ghost use Rattle.std.specs.Prelude.{◌≡◌, ◌<◌, None, false, IfOk};

use crate::three_ways::expect_left;
use byte_streams::{Failed, Feed, ReadCount, ReadRefused, Room, Source, read_file};
use cwr_desk::{Book, FileOutcome, Job, Run, Why, acknowledge, outcome_line, serve_in_turn};
use std::alloc::Global;
use std::test::Fail;
use test_comparisons::{same, same_bytes, same_lists};
use test_files::{one_answer, plain_file, stamp, with_newlines};

/// Acknowledges a file. `alloc` allocates, and `reader` gives the file. The writer takes `room` bytes; then it fails if
/// `fails` is true, and else takes nothing more. `end` is how the file must end, and `written` what must be written.
fn expect<R: Source>(
    alloc: Global,
    reader: &mut R,
    room: usize,
    fails: bool,
    end: FileOutcome,
    written: &[u8],
) -> Result<(), Fail>
    requires { R.has_failed reader.old ≡ false }
{
    let stamp = stamp()?;
    let mut writer = Room::new(alloc, room, fails)?;
    let outcome = acknowledge(alloc, reader, &mut writer, &stamp);
    expect_left(outcome, &writer, end, written)
}

/// Acknowledges a file whose reader gives `chunk` bytes at a time: it must be answered as the plain file is.
fn expect_plain(alloc: Global, input: &[u8], chunk: usize) -> Result<(), Fail>
    requires { 0 < chunk }
{
    let end = FileOutcome::Acked { transactions: 1 };
    let wanted = one_answer(alloc, "AS")?;
    let mut reader = Feed::new(input, chunk, None);
    expect(alloc, &mut reader, 425, true, end, &wanted)
}

/// The plain file with each line end: at once, and with LF alone a byte at a time.
fn expect_both_ends(alloc: Global, input: &[u8]) -> Result<(), Fail> {
    expect_plain(alloc, input, 4096)?;
    let newlines = with_newlines(alloc, input)?;
    expect_plain(alloc, &newlines, 1)
}

#[test]
fn acknowledges_one_work(rt: HostRuntime) -> Result<(), Fail> {
    let alloc = rt.alloc();
    same("its length", &one_answer(alloc, "AS")?.len(), &425)?;
    let input = plain_file(alloc)?;
    expect_both_ends(alloc, &input)
}

#[test]
fn takes_the_old_end_of_file_mark(rt: HostRuntime) -> Result<(), Fail> {
    let alloc = rt.alloc();
    let mut input = plain_file(alloc)?;
    input.extend_from_slice(b"\r\n\x1a\r\n")?;
    expect_plain(alloc, &input, 4096)
}

/// The plain file is stopped after these bytes, in either way in which a writer can be full.
fn expect_stopped_after(alloc: Global, input: &[u8], sent: &[u8]) -> Result<(), Fail> {
    let why = Why::Write { sent: 100 };
    let end = FileOutcome::Stopped { handed: 1, why };
    for fails in [true, false] {
        let mut reader = Feed::new(input, 4096, None);
        expect(alloc, &mut reader, 100, fails, end, sent)?;
    }
    Ok(())
}

#[test]
fn stops_where_a_write_fails(rt: HostRuntime) -> Result<(), Fail> {
    let alloc = rt.alloc();
    let input = plain_file(alloc)?;
    let wanted = one_answer(alloc, "AS")?;
    let sent = wanted.get(..100).ok_or("100 bytes")?;
    expect_stopped_after(alloc, &input, sent)
}

/// A source that gives the byte `A` for ever.
#[derive(Drop)]
struct Endless {
    reads: ReadCount,
}

impl Source for Endless {
    ghost left = { λ _. None };

    ghost reads = { λ s. s.reads };

    ghost has_failed = { λ _. false };

    fn failed(&self) -> bool {
        false
    }

    fn read_some(&mut self, room: &mut [u8]) -> Result<usize, Failed> {
        self.reads.count();
        for byte in room.iter_mut() {
            *byte = b'A';
        }
        Ok(room.len())
    }
}

const TOO_LONG: FileOutcome = FileOutcome::Stopped {
    handed: 0,
    why: Why::TooLong,
};

#[test]
fn stops_where_the_file_has_no_end(rt: HostRuntime) -> Result<(), Fail> {
    let alloc = rt.alloc();
    let mut endless = Endless {
        reads: ReadCount::zero(),
    };
    expect(alloc, &mut endless, 425, true, TOO_LONG, b"")
}

/// A job for a file without an end.
fn endless_job(alloc: Global) -> Result<Job<Endless, Room>, Fail>
    ensures { IfOk result (λ job. job.writer.has_failed ≡ false) }
{
    Ok(Job {
        writer: Room::new(alloc, 425, true)?,
        reader: Endless {
            reads: ReadCount::zero(),
        },
    })
}

/// The one job of a run was stopped before anything was handed in, and nothing was written.
fn expect_too_long(run: &Run<Endless, Room>) -> Result<(), Fail> {
    same_lists("how the job ended", &run.outcomes, &[TOO_LONG])?;
    same("entries", &run.book.len(), &0)?;
    let job = run.jobs.first().ok_or("a job")?;
    same_bytes("what it wrote", job.writer.bytes(), b"")
}

/// A run of that job alone, in turn, into an empty book.
fn run_endless(alloc: Global) -> Result<Run<Endless, Room>, Fail> {
    let stamp = stamp()?;
    let job = endless_job(alloc)?;
    let mut jobs = Vec::new(alloc);
    jobs.push(job)?;
    match serve_in_turn(alloc, jobs, Book::new(alloc, 100), &stamp) {
        Ok(run) => Ok(run),
        Err(_) => Err(Fail::new("memory")),
    }
}

#[test]
fn stops_a_job_whose_file_has_no_end(rt: HostRuntime) -> Result<(), Fail> {
    let run = run_endless(rt.alloc())?;
    expect_too_long(&run)
}

#[test]
fn stops_where_a_read_fails(rt: HostRuntime) -> Result<(), Fail> {
    let alloc = rt.alloc();
    let input = plain_file(alloc)?;
    let mut failing = Feed::new(&input, 4096, Some(1));
    let why = Why::Read;
    let end = FileOutcome::Stopped { handed: 0, why };
    expect(alloc, &mut failing, 425, true, end, b"")
}

#[test]
fn reads_up_to_the_limit(rt: HostRuntime) -> Result<(), Fail> {
    let whole = read_file(rt.alloc(), &mut Feed::new(b"abc", 2, None), 3)?;
    same_bytes("a whole file", &whole, b"abc")
}

/// A file must be refused. Its reader gives two bytes at a time, and fails at read `fail`, if that is given. At most
/// three bytes may be read.
fn expect_refused(
    alloc: Global,
    text: &str,
    fail: Option<u64>,
    wanted: ReadRefused,
) -> Result<(), Fail> {
    let mut reader = Feed::new(text.as_bytes(), 2, fail);
    let refused = read_file(alloc, &mut reader, 3).err();
    same(text, &refused, &Some(wanted))
}

#[test]
fn refuses_a_file_past_the_limit_and_a_failed_read(rt: HostRuntime) -> Result<(), Fail> {
    expect_refused(rt.alloc(), "abcd", None, ReadRefused::TooLong)?;
    expect_refused(rt.alloc(), "abc", Some(2), ReadRefused::Read)
}

/// The line that reports the outcome of a file.
fn expect_line(alloc: Global, name: &str, outcome: FileOutcome, wanted: &str) -> Result<(), Fail> {
    let line = outcome_line(alloc, name.as_bytes(), &outcome)?;
    same_bytes("a line", &line, wanted.as_bytes())
}

#[test]
fn tells_outcomes(rt: HostRuntime) -> Result<(), Fail> {
    let alloc = rt.alloc();
    let acknowledged = FileOutcome::Acked { transactions: 12 };
    expect_line(alloc, "a.v22", acknowledged, "a.v22: acknowledged 12\n")?;
    let refused = FileOutcome::Refused { number: 9, line: 5 };
    expect_line(alloc, "a.v22", refused, "a.v22: refused F9 at line 5\n")
}

/// The line of a file on standard input that was stopped after `handed` transactions.
fn expect_stopped(alloc: Global, handed: u32, why: Why, wanted: &str) -> Result<(), Fail> {
    expect_line(alloc, "-", FileOutcome::Stopped { handed, why }, wanted)
}

#[test]
fn tells_why_a_file_was_stopped(rt: HostRuntime) -> Result<(), Fail> {
    let alloc = rt.alloc();
    expect_stopped(alloc, 0, Why::Memory, "-: stopped after 0: memory\n")?;
    expect_stopped(alloc, 2, Why::Full, "-: stopped after 2: full\n")?;
    expect_stopped(alloc, 0, Why::Read, "-: stopped after 0: read\n")?;
    expect_stopped(alloc, 0, Why::TooLong, "-: stopped after 0: too long\n")?;
    expect_stopped(alloc, 1, Why::Gate, "-: stopped after 1: gate\n")?;
    let wanted = "-: stopped after 1: write after 100 bytes\n";
    expect_stopped(alloc, 1, Why::Write { sent: 100 }, wanted)
}
