//! Readers and writers of std that fail once, or are interrupted, and the number of calls that they get.

use byte_streams::{
    Failed, MAX_REPEATS, ReadRefused, Source, Through, WriteStopped, read_file, write_out,
};
use std::alloc::Global;
use std::io;
use std::io::ErrorKind;
use std::test::Fail;
use test_comparisons::{same, same_bytes};

/// What a call returns.
#[derive(Clone, Copy)]
enum Call {
    Works,
    Interrupted,
    Broken,
}

use Call::{Broken, Interrupted, Works};

const TEXT: &[u8] = b"HDRPB1234";

/// The number of interruptions that a call gets over.
const EIGHT: [Call; 8] = [Interrupted; 8];

const NINE: [Call; 9] = [Interrupted; 9];

/// A reader and a writer that moves three bytes a call. Its first calls answer as a list says, and all others succeed.
#[derive(Drop)]
struct Scripted<'a> {
    left: &'a [u8],
    taken: Vec<u8>,
    first: &'a [Call],
    calls: usize,
}

impl<'a> Scripted<'a> {
    fn new(alloc: Global, first: &'a [Call]) -> Scripted<'a> {
        Scripted {
            left: TEXT,
            taken: Vec::new(alloc),
            first,
            calls: 0,
        }
    }

    /// Whether the next call succeeds.
    fn answer(&mut self) -> io::Result<()> {
        let call = self.first.get(self.calls).copied().unwrap_or(Works);
        self.calls = self.calls.saturating_add(1);
        match call {
            Works => Ok(()),
            Interrupted => Err(io::Error::from(ErrorKind::Interrupted)),
            Broken => Err(io::Error::from(ErrorKind::BrokenPipe)),
        }
    }
}

impl io::Read for Scripted<'_> {
    fn read(&mut self, buf: &mut [u8]) -> io::Result<usize> {
        self.answer()?;
        let n = self.left.len().min(buf.len()).min(3);
        let (given, left) = self.left.split_at(n);
        buf[..n].copy_from_slice(given);
        self.left = left;
        Ok(n)
    }
}

impl io::Write for Scripted<'_> {
    fn write(&mut self, buf: &[u8]) -> io::Result<usize> {
        self.answer()?;
        let n = buf.len().min(3);
        self.taken.extend_from_slice(&buf[..n])?;
        Ok(n)
    }

    fn flush(&mut self) -> io::Result<()> {
        Ok(())
    }
}

/// One read of a reader: what it returns, and the number of calls that the reader gets for it.
fn expect_read(
    alloc: Global,
    first: &[Call],
    answer: Result<usize, Failed>,
    calls: usize,
) -> Result<(), Fail> {
    let mut source = Through::new(Scripted::new(alloc, first));
    let mut room = *b"????";
    let read = source.read_some(&mut room);
    let failed = Source::failed(&source);
    let found = (read, failed, source.into_inner().calls);
    same("a read", &found, &(answer, answer.is_err(), calls))
}

#[test]
fn reads_again_where_it_is_interrupted(rt: HostRuntime) -> Result<(), Fail> {
    let alloc = rt.alloc();
    same("repeats", &MAX_REPEATS, &8)?;
    expect_read(alloc, &[], Ok(3), 1)?;
    expect_read(alloc, &[Interrupted], Ok(3), 2)?;
    expect_read(alloc, &EIGHT, Ok(3), 9)?;
    expect_read(alloc, &NINE, Err(Failed), 9)
}

/// A second call would work.
#[test]
fn reads_no_more_where_it_fails(rt: HostRuntime) -> Result<(), Fail> {
    let alloc = rt.alloc();
    expect_read(alloc, &[Broken], Err(Failed), 1)?;
    expect_read(alloc, &[Interrupted, Broken], Err(Failed), 2)
}

/// A file that is read from a reader. `alloc` allocates, and `first` says how the reader's first calls answer.
/// `refused` is why the file is not read, if it is not. `left` is what the reader has left, and `calls` the number of
/// calls that it got.
fn expect_file(
    alloc: Global,
    first: &[Call],
    refused: Option<ReadRefused>,
    left: &[u8],
    calls: usize,
) -> Result<(), Fail> {
    let mut source = Through::new(Scripted::new(alloc, first));
    let read = read_file(alloc, &mut source, 100);
    let reader = source.into_inner();
    same(
        "a file, and calls",
        &(read.err(), reader.calls),
        &(refused, calls),
    )?;
    same_bytes("what is left", reader.left, left)
}

/// Three reads give the bytes, and a fourth finds the end.
#[test]
fn reads_a_file_up_to_a_failure(rt: HostRuntime) -> Result<(), Fail> {
    let alloc = rt.alloc();
    let failed = Some(ReadRefused::Read);
    expect_file(alloc, &[], None, b"", 4)?;
    expect_file(alloc, &[Works, Broken], failed, b"PB1234", 2)?;
    expect_file(alloc, &[Works, Interrupted], None, b"", 5)?;
    expect_file(alloc, &[Works, Interrupted, Broken], failed, b"PB1234", 3)?;
    expect_file(alloc, &[Works, Works, Works, Broken], failed, b"", 4)
}

/// A text that is written to a writer. `alloc` allocates, and `first` says how the writer's first calls answer. `ended`
/// is how that ends, `taken` what the writer took, and `calls` the number of calls that it got.
fn expect_written(
    alloc: Global,
    first: &[Call],
    ended: Result<(), WriteStopped>,
    taken: &[u8],
    calls: usize,
) -> Result<(), Fail> {
    let mut sink = Through::new(Scripted::new(alloc, first));
    let written = write_out(&mut sink, TEXT);
    let writer = sink.into_inner();
    same(
        "a text, and calls",
        &(written, writer.calls),
        &(ended, calls),
    )?;
    same_bytes("what was taken", &writer.taken, taken)
}

#[test]
fn writes_again_where_it_is_interrupted(rt: HostRuntime) -> Result<(), Fail> {
    let alloc = rt.alloc();
    let stopped = Err(WriteStopped { sent: 0 });
    expect_written(alloc, &[], Ok(()), TEXT, 3)?;
    expect_written(alloc, &[Works, Interrupted], Ok(()), TEXT, 4)?;
    expect_written(alloc, &EIGHT, Ok(()), TEXT, 11)?;
    expect_written(alloc, &NINE, stopped, b"", 9)
}

#[test]
fn writes_no_more_where_it_fails(rt: HostRuntime) -> Result<(), Fail> {
    let alloc = rt.alloc();
    let stopped = Err(WriteStopped { sent: 3 });
    expect_written(alloc, &[Works, Broken], stopped, b"HDR", 2)?;
    expect_written(alloc, &[Works, Interrupted, Broken], stopped, b"HDR", 3)
}
